// A number that a question or a plan spells out.
#[derive(Clone, Copy)]
pub struct Constant(pub u32);
