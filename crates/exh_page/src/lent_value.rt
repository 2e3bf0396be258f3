ghost use Rattle.std.specs.Prelude.{◌≡◌, ◌≤◌, length, bytes_eq};
ghost use Rattle.exh_page.specs.declared.value.TheConstants.{VALUE_LIMIT};

use crate::Value;
use std::marker::Model;

/// A value of 0 to 128 bytes, read where it stands.
#[derive(Drop)]
pub struct LentValue<'a> {
    bytes: &'a [u8],
}

impl<'a> Model for LentValue<'a> {
    ghost use Rattle.std.specs.Prelude.{ℕ, ◌≤◌, List, length};
    ghost use Rattle.exh_page.specs.declared.value.TheConstants.{VALUE_LIMIT};

    ghost Value = { List ℕ };

    ghost view = { λ value. value.bytes.now };

    ghost invariant = { λ value. length value.bytes.now ≤ VALUE_LIMIT };
}

impl<'a> LentValue<'a> {
    /// The value of these bytes, at most 128 of them.
    pub fn of(bytes: &'a [u8]) -> LentValue<'a>
        requires { length bytes.now ≤ VALUE_LIMIT }
        ensures { result ≡ bytes.now }
    {
        LentValue { bytes }
    }

    /// A copy of the value. It takes no memory.
    pub fn to_value(&self) -> Value
        ensures { result ≡ self.now }
    {
        Value::of(self.bytes)
    }

    /// The value's bytes, 0 to 128 of them.
    pub fn as_bytes(&self) -> &'a [u8]
        ensures bytes { result.now ≡ self.now }
        ensures limit { length self.now ≤ VALUE_LIMIT }
    {
        self.bytes
    }

    /// Whether it has the bytes of another value.
    pub fn equals(&self, other: &Value) -> bool
        ensures { result ≡ bytes_eq self.now other.now }
    {
        self.bytes == other.as_bytes()
    }
}
