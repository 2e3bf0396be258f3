ghost use Rattle.std.specs.Prelude.{◌≡◌, ℕ, ◌≤◌, List, length};
ghost use Rattle.std.specs.Result.{OkIff};
ghost use Rattle.exh_page.specs.declared.key.TheConstants.{KEY_LIMIT};

use crate::SizeFault;
use crate::short_bytes::ShortBytes;
use std::marker::Model;

/// The greatest length of a key, in bytes.
pub const KEY_LIMIT: usize = 64;

/// A key: 1 to 64 bytes, ordered as lists of bytes: the first that differs decides, and a key that
/// ends first is the lesser. A copy takes no memory.
#[derive(Clone, Copy, PartialEq, Eq)]
pub struct Key {
    bytes: ShortBytes<KEY_LIMIT>,
}

impl Model for Key {
    ghost use Rattle.std.specs.Prelude.{ℕ, ◌≤◌, List, length};
    ghost use Rattle.exh_page.specs.declared.key.TheConstants.{KEY_LIMIT};

    ghost Value = { List ℕ };

    ghost view = { λ key. key.bytes };

    ghost invariant = { λ key. (1 ≤ length key.bytes) × (length key.bytes ≤ KEY_LIMIT) };

    ghost inverse = { λ bytes. record { bytes = bytes } };
}

impl Key {
    /// The key of 1 to 64 bytes. Any other length is a `SizeFault`. It takes no
    /// memory.
    pub fn from_bytes(bytes: &[u8]) -> Result<Key, SizeFault>
        ensures { OkIff result ((1 ≤ length bytes.now) × (length bytes.now ≤ KEY_LIMIT)) bytes.now }
    {
        if bytes.is_empty() {
            return Err(SizeFault);
        }
        match ShortBytes::from_slice(bytes) {
            Some(bytes) => Ok(Key { bytes }),
            None => Err(SizeFault),
        }
    }

    /// The key of these bytes.
    pub(crate) fn of(bytes: &[u8]) -> Key
        requires some { 1 ≤ length bytes.now }
        requires limit { length bytes.now ≤ KEY_LIMIT }
        ensures { result ≡ bytes.now }
    {
        Key {
            bytes: ShortBytes::of(bytes),
        }
    }

    /// The key's bytes, 1 to 64 of them.
    pub fn as_bytes(&self) -> &[u8]
        ensures bytes { result.now ≡ self.now }
        ensures some { 1 ≤ length self.now }
        ensures limit { length self.now ≤ KEY_LIMIT }
    {
        self.bytes.as_slice()
    }
}
