//! Network addresses as inet_send writes them and inet_recv reads them.
#![tactic(auto)]

pub mod address;
pub mod read;
pub mod write;
