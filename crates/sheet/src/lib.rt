//! The sheet: a composite value that is filled column by column, in a lent buffer.
#![tactic(auto)]

mod calls;
mod file;
pub mod sheet;
