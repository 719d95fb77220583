//! The entries of an hstore that is written.
use texts::place::Place;

// An entry: the places of its key and of its value. An absent value is NULL; a key is never absent.
#[derive(Clone, Copy)]
pub struct HstoreEntry {
    pub key: Place,
    pub value: Place,
}
