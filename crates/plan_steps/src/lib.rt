// Planning apart from the cycle: what is wanted of a condition, the way and the last nodes of a quantifier, the nodes of a table, the project on targets.
#![tactic(auto)]

pub mod quantifying;
pub mod ranges;
pub mod targets;
