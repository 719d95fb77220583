//! Arrays as array_send writes them. The crate `arrayview` reads them.
#![tactic(auto)]

pub mod dimension;
pub mod write;
