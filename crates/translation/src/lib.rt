// Translation: an accepted question's node table becomes exactly the plan words that the rules name.
#![tactic(auto)]

pub mod call;
