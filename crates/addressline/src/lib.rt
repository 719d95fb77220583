//! The requests for texts and addresses.
#![tactic(auto)]

mod address;
pub mod requests;
