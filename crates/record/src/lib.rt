//! Composite values as record_send writes them and record_recv reads them.
#![tactic(auto)]

pub mod columns;
pub mod read;
