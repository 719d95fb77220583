//! Elements: values that write themselves, of at most 64 bytes.
#![tactic(auto)]

pub mod element;
pub mod kinds;
pub mod total;
