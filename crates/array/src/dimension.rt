//! The dimensions of an array.

// A dimension: its length, and the index of its first element.
#[derive(Clone, Copy, PartialEq, Eq, Debug)]
pub struct ArrayDimension {
    pub len: i32,
    pub lower_bound: i32,
}
