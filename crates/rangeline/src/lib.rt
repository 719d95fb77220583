//! The requests that read and write a range.
#![tactic(auto)]

mod bounds;
pub mod requests;
