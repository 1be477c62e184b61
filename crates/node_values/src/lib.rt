// One node of a legal plan run: its value made in the work area, behind the values before it.
#![tactic(auto)]

pub mod node;
