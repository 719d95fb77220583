//! Paths as path_send writes them and path_recv reads them.
#![tactic(auto)]

pub mod points;
pub mod read;
pub mod write;
