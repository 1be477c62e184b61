// The table operations over values in the work area that set no left row beside right ones. Each offers its candidate rows to `values::placing::place_row`.
#![tactic(auto)]

pub mod columns;
pub mod copy;
pub mod keep;
pub mod made;
pub mod project;
