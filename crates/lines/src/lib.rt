// The rules for numbers and lines, read and written.
#![tactic(auto)]

pub mod reader;
pub mod reading;
pub mod writing;
