//! What the columns of a sheet are filled with: each is one item.
#![tactic(auto)]

pub mod array_content;
pub mod encoded;
pub mod formats;
pub mod item;
pub mod lists;
pub mod one;
pub mod one_item;
pub mod raised;
pub mod range_content;
