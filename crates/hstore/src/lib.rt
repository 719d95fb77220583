//! Hstore values as hstore_send writes them. The crate `hstoreview` reads them.
#![tactic(auto)]

pub mod entry;
pub mod write;
