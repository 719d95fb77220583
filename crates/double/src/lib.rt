//! Doubles by their eight bytes, points and boxes.
#![tactic(auto)]

pub mod point;
pub mod word;
