//! What every format shares: big-endian words and the length word.
#![tactic(auto)]

pub mod cursor;
pub mod oid;
pub mod read;
pub mod word;
pub mod write;
