// A question judged: refusals 1 to 6 with their places, over the trees of its nodes.
#![tactic(auto)]

pub mod judgement;
pub mod walking;
