// Values in the work area: rows of one width, one after another, ascending and without repeats. Reading a row, finding one, placing one.
#![tactic(auto)]

pub mod clearing;
pub mod placing;
pub mod rows;
pub mod search;
