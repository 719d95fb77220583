//! Reading hstore values: the cursor over their entries.
#![tactic(auto)]

pub mod entries;
pub mod read;
