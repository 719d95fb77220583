//! The words of the line protocol: byte strings, numbers and faults, printed and read.
#![tactic(auto)]

pub mod compare;
pub mod parse;
pub mod print;
