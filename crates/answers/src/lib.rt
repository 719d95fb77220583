//! The answers of the line protocol that requests share, and lists read by a cursor.
#![tactic(auto)]

pub mod parts;
pub mod plain;
pub mod written;
