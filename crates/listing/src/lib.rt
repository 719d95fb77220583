//! Lists of words, and the requests that show the items of a serializer.
#![tactic(auto)]

pub mod list;
pub mod print;
pub mod requests;
pub mod words;
