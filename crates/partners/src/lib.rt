// A left row's partners among right rows: what the triples ask of them, worked out once for the left row, and where they can stand in an ascending value.
#![tactic(auto)]

pub mod bounds;
pub mod finding;
pub mod sieve;
pub mod words;
