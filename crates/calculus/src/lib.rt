// Definitions and theorems alone: read specs/ beside document 01, "The question" and "Translation", then proofs/.
#![tactic(auto)]
