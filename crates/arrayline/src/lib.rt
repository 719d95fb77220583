//! The requests that read and write an array.
#![tactic(auto)]

pub mod parts;
pub mod requests;
pub mod words;
