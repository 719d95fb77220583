//! Points and boxes as point_send and box_send write them, and point_recv and box_recv read them.
#![tactic(auto)]

pub mod read;
pub mod write;
