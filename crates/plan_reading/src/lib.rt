// Plans from anyone: their words decoded and judged, and the widths of their nodes.
#![tactic(auto)]

pub mod judging;
pub mod legal;
pub mod nodes;
