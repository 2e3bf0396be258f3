ghost use Rattle.std.specs.Prelude.{◌≡◌, ℕ, ◌≤◌, List, length};
ghost use Rattle.std.specs.Result.{OkIff};
ghost use Rattle.exh_page.specs.declared.value.TheConstants.{VALUE_LIMIT};

use crate::SizeFault;
use crate::short_bytes::ShortBytes;
use std::marker::Model;

/// The greatest length of a value, in bytes.
pub const VALUE_LIMIT: usize = 128;

/// A value: 0 to 128 bytes. A copy takes no memory.
#[derive(Clone, Copy, Debug, PartialEq, Eq)]
pub struct Value {
    bytes: ShortBytes<VALUE_LIMIT>,
}

impl Model for Value {
    ghost use Rattle.std.specs.Prelude.{ℕ, ◌≤◌, List, length};
    ghost use Rattle.exh_page.specs.declared.value.TheConstants.{VALUE_LIMIT};

    ghost Value = { List ℕ };

    ghost view = { λ value. value.bytes };

    ghost invariant = { λ value. length value.bytes ≤ VALUE_LIMIT };

    ghost inverse = { λ bytes. record { bytes = bytes } };
}

impl Value {
    /// The value of 0 to 128 bytes. A longer one is a `SizeFault`. It takes no
    /// memory.
    pub fn from_bytes(bytes: &[u8]) -> Result<Value, SizeFault>
        ensures { OkIff result (length bytes.now ≤ VALUE_LIMIT) bytes.now }
    {
        match ShortBytes::from_slice(bytes) {
            Some(bytes) => Ok(Value { bytes }),
            None => Err(SizeFault),
        }
    }

    /// The value of these bytes.
    pub(crate) fn of(bytes: &[u8]) -> Value
        requires { length bytes.now ≤ VALUE_LIMIT }
        ensures { result ≡ bytes.now }
    {
        Value {
            bytes: ShortBytes::of(bytes),
        }
    }

    /// The value's bytes, 0 to 128 of them.
    pub fn as_bytes(&self) -> &[u8]
        ensures bytes { result.now ≡ self.now }
        ensures limit { length self.now ≤ VALUE_LIMIT }
    {
        self.bytes.as_slice()
    }
}
