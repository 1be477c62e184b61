// What questions, plans and table operations all name: attributes, constants and operators.
#![tactic(auto)]

pub mod attribute;
pub mod constant;
pub mod operator;
