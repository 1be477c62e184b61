// Operation 5: a left row beside the right rows that it meets.
#![tactic(auto)]

pub mod join;
