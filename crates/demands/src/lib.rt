// Theorems alone: what is claimed of the calls, in document 01's words. Read specs/ beside document 01, "Refusal numbers" and its examples, then proofs/.
#![tactic(auto)]
