use crate::{Key, Value};

/// A key and its value, with the key's pseudokey beside them, so that a page is never hashed again.
#[derive(Clone, Copy, PartialEq, Eq)]
pub struct Record {
    /// The 64 bits that the file's keyer makes of the key.
    pub pseudokey: u64,
    pub key: Key,
    pub value: Value,
}
