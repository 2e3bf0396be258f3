//! Calls by the bytes of their keys and values.

use crate::{Difference, Part};
use exh_calls::Call;
use exh_page::{Key, Value};

/// A call: its key, and of a put the value, of a swap the old one and the new.
#[derive(Clone, Copy)]
pub enum Asked<'a> {
    Get(&'a [u8]),
    Put(&'a [u8], &'a [u8]),
    Del(&'a [u8]),
    Swap(&'a [u8], &'a [u8], &'a [u8]),
}

impl Asked<'_> {
    /// The call. A `Difference` where the key or the value is of a wrong size.
    pub fn call(&self) -> Result<Call, Difference> {
        Ok(match self {
            Asked::Get(bytes) => Call::Get { key: key(bytes)? },
            Asked::Put(bytes, put) => Call::Put {
                key: key(bytes)?,
                value: value(put)?,
            },
            Asked::Del(bytes) => Call::Del { key: key(bytes)? },
            Asked::Swap(bytes, old, new) => Call::Swap {
                key: key(bytes)?,
                old: value(old)?,
                new: value(new)?,
            },
        })
    }
}

/// The key of these bytes. A `Difference` where there are too many, or none.
pub fn key(bytes: &[u8]) -> Result<Key, Difference> {
    Key::from_bytes(bytes).or(Err(Difference::Apart(Part::Run)))
}

/// The value of these bytes. A `Difference` where there are too many.
pub fn value(bytes: &[u8]) -> Result<Value, Difference> {
    Value::from_bytes(bytes).or(Err(Difference::Apart(Part::Run)))
}
