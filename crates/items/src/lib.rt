//! The items that a request spells, as a serializer.
#![tactic(auto)]

pub mod list;
pub mod parse;
pub mod slot;
