// The rules of the shortened mode, S2 to S6: when each fits, and what its nodes list.
#![tactic(auto)]

pub mod fits;
pub mod lists;
