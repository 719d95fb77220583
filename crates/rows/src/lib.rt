//! The rows of layers, the table that holds them, and the items below that a row sees.
#![tactic(auto)]

pub mod above;
pub mod encoded;
mod filling;
pub mod row;
pub mod table;
pub mod window;
