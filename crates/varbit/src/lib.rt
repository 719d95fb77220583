//! Bit strings as varbit_send writes them and varbit_recv reads them.
#![tactic(auto)]

pub mod read;
pub mod write;
