//! Ranges as range_send writes them and range_recv reads them.
#![tactic(auto)]

pub mod bound;
pub mod read;
mod side;
pub mod write;
