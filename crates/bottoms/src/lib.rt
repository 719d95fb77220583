//! The validators at the bottom of a pile, each reading its format to the end.
#![tactic(auto)]

pub mod plain;
pub mod rows;
