//! Where a text lies.

// The house's own pool, or the supplier's.
#[derive(Clone, Copy, PartialEq, Eq, Debug)]
pub enum Pool {
    House,
    Supplier,
}

// A part of a pool.
#[derive(Clone, Copy, PartialEq, Eq, Debug)]
pub struct Span {
    pub pool: Pool,
    pub start: usize,
    pub length: usize,
}

// A text's place, or none: then the text is NULL.
pub type Place = Option<Span>;
