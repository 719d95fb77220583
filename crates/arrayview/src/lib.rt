//! Reading arrays: the view and its cursors.
#![tactic(auto)]

pub mod dimensions;
pub mod read;
pub mod values;
