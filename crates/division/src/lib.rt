// Operation 8, which is made of more parts than the others.
#![tactic(auto)]

pub mod divide;
