//! The requests that read and write an hstore.
#![tactic(auto)]

pub mod entries;
pub mod requests;
pub mod words;
