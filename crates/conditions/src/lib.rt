// Conditions: what the rules of translation look at in a question: the scope, atoms, and the leaves of a tree of them.
#![tactic(auto)]

pub mod atom;
pub mod leaves;
pub mod scope;
