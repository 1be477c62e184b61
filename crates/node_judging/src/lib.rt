// What refusals 5 and 6 ask of one node in its scope.
#![tactic(auto)]

pub mod judging;
pub mod lowest;
pub mod scope;
