// Emission: a plan's nodes, written one behind another at its end, and its heavy operations counted.
#![tactic(auto)]

pub mod emit;
pub mod heavy;
pub mod node_list;
pub mod projects;
