// Definitions and theorems alone: read specs/ beside document 01, "Bundle text and the program", then proofs/.
#![tactic(auto)]
