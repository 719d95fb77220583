//! Object identifiers and NULL.

// The number of a PostgreSQL type.
pub type Oid = u32;

// Whether a value is NULL: kept in the place of a bool, with the name and the cases that the crate
// postgres-protocol gives it.
#[derive(Clone, Copy, PartialEq, Eq, Debug)]
pub enum IsNull {
    Yes,
    No,
}
