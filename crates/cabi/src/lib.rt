//! A C interface to reading and writing whole values, to measure them by.
#![tactic(auto)]

mod answer;
pub mod reads;
pub mod writes;
