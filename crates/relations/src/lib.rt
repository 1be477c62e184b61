// Definitions and laws: read specs/ beside documents 000 and 01, then proofs/. The code has the limits, and which operations are heavy.
#![tactic(auto)]

pub mod heavy;
pub mod limits;
