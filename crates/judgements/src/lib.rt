// Definitions and theorems alone: refusals 5 and 6 said of a node and the scope in which it stands, and what an accepted question is.
#![tactic(auto)]
