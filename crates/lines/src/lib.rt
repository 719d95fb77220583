//! Line protocols: what one is, the answer to a line, and input in lines.
#![tactic(auto)]

pub mod argument;
pub mod buffer;
pub mod protocol;
pub mod serve;
