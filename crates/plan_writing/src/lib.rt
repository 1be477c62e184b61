// Planning: the plan of a question, range by range and condition by condition, as the rules name it.
#![tactic(auto)]

pub mod translate;
