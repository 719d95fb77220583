//! The tag bits of the two sides of a range.

// The bit of an inclusive bound, and the bit of none.
#[derive(Clone, Copy)]
pub(crate) struct Side {
    pub(crate) inclusive: u8,
    pub(crate) unbounded: u8,
}

impl Side {
    pub(crate) const LOWER: Side = Side {
        inclusive: 2,
        unbounded: 8,
    };

    pub(crate) const UPPER: Side = Side {
        inclusive: 4,
        unbounded: 16,
    };
}
