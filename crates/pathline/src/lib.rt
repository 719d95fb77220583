//! The requests that read and write a path.
#![tactic(auto)]

pub mod points;
pub mod requests;
