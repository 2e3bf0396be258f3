//! Keys and values of byte slices.
ghost use Rattle.std.specs.Prelude.{◌≡◌, IfErr, IfOk, OnOk};
ghost use Rattle.exh_map.specs.CallFault.{IsKeyFault, IsValueFault};
ghost use Rattle.exh_map.specs.Sizes.{IsKey, IsValue};

use crate::StoreError;
use exh_page::{Key, Value};

/// The key of these bytes.
///
/// `EmptyKey`: there are none. `KeyTooLong`: there are more than 64.
pub fn key_of(bytes: &[u8]) -> Result<Key, StoreError>
    ensures bytes { IfOk result (λ key. key ≡ bytes.now) }
    ensures sized { OnOk result (IsKey bytes.now) }
    ensures refused { IfErr result (IsKeyFault bytes.now) }
{
    match Key::from_bytes(bytes) {
        Ok(key) => Ok(key),
        Err(_) if bytes.is_empty() => Err(StoreError::EmptyKey),
        Err(_) => Err(StoreError::KeyTooLong {
            length: bytes.len(),
        }),
    }
}

/// The value of these bytes.
///
/// `ValueTooLong`: there are more than 128.
pub fn value_of(bytes: &[u8]) -> Result<Value, StoreError>
    ensures bytes { IfOk result (λ value. value ≡ bytes.now) }
    ensures sized { OnOk result (IsValue bytes.now) }
    ensures refused { IfErr result (IsValueFault bytes.now) }
{
    match Value::from_bytes(bytes) {
        Ok(value) => Ok(value),
        Err(_) => Err(StoreError::ValueTooLong {
            length: bytes.len(),
        }),
    }
}
