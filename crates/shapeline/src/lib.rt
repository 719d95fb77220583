//! The requests that read and write a bit string, a point or a box.
#![tactic(auto)]

pub mod shapes;
pub mod varbits;
pub mod words;
