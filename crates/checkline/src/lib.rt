//! The request that checks bytes against a pile.
#![tactic(auto)]

pub mod bottom;
pub mod layers;
mod piles;
pub mod requests;
pub mod words;
