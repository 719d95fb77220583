//! The request that reads a record.
#![tactic(auto)]

pub mod columns;
pub mod requests;
