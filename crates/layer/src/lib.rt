//! Layers: serializers over any serializer, whose items are arrays or ranges of the items below.
#![tactic(auto)]

pub mod array_layer;
pub mod range_layer;
pub mod row_kind;
mod table_layer;
