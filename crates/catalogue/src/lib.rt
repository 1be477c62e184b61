// The catalogue: what refusal 7 asks of it, and the stored tables as it describes them.
#![tactic(auto)]

pub mod judging;
pub mod stored;
