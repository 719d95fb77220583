//! The rows of layers.
use range::bound::RangeBound;

// An array of so many items below, from the first on.
#[derive(Clone, Copy)]
pub struct ArrayRow {
    pub first: u16,
    pub count: u16,
}

// The empty range, or a range whose bounds name items below. Its cases are those of `Range`; an Option
// of a pair would not say that none is the empty range.
#[derive(Clone, Copy)]
pub enum RangeRow {
    Empty,
    Bounds(RangeBound<u16>, RangeBound<u16>),
}
