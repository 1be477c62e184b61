// A column's number, from 1.
#[derive(Clone, Copy)]
pub struct Attribute(pub u32);
