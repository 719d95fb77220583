//! One item.
use fault::Fault;

// An item as a request spells it: NULL, a payload, or a fault of another implementation.
pub type Slot = Result<Option<Vec<u8>>, Fault>;
