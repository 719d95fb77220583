//! What a sheet is.

// How many bytes of its buffer a sheet fills, and how many columns it has.
#[derive(Clone, Copy)]
pub struct Sheet {
    pub(crate) fill: usize,
    pub(crate) columns: usize,
}
