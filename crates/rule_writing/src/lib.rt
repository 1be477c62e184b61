// The rules of the shortened mode, S2 to S6: the nodes that each writes.
#![tactic(auto)]

pub mod rules;
