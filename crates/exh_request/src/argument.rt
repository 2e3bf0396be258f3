//! The key, the value and the path that a word is.
ghost use Rattle.std.specs.Prelude.{◌≡◌, true, IfOk, IfErr};
ghost use Rattle.exh_request.specs.Arguments.{bytes_asked, key_asked, key_ranged, value_asked, value_ranged};
ghost use Rattle.exh_request.specs.Causes.{IsCauseOf};
ghost use Rattle.exh_request.specs.Request.{path_asked};

use crate::{CauseOrMemory, Place, WrongCause};
use exh_page::{Key, Value};
use hex::FromHexError;
use std::alloc::Global;

/// The path that a word is.
#[tactic(auto, using(crate::proofs::Paths::text_path, crate::proofs::Paths::other_path))]
pub(crate) fn path_of(word: &[u8], place: Place) -> Result<&str, WrongCause>
    ensures ok { IfOk result (λ path. path_asked place word.now ≡ Ok path.now) }
    ensures err { IfErr result (λ cause. path_asked place word.now ≡ Err cause) }
{
    match str::from_utf8(word) {
        Ok(path) => Ok(path),
        Err(_) => Err(WrongCause::PathNotText(place)),
    }
}

/// The key that a word is: its bytes, or those that its hexadecimal digits spell.
pub(crate) fn key_of(alloc: Global, word: &[u8], is_hex: bool) -> Result<Key, CauseOrMemory>
    ensures ok { IfOk result (λ key. key_asked is_hex word.now ≡ Ok key) }
    ensures wrong { IfErr result (IsCauseOf (key_asked is_hex word.now)) }
{
    if !is_hex {
        return Ok(key_of_bytes(word)?);
    }
    let bytes = decoded(alloc, word, Place::Key)?;
    Ok(key_of_bytes(bytes.as_slice())?)
}

/// The value that a word at this place is, in the same way.
pub(crate) fn value_of(
    alloc: Global,
    word: &[u8],
    is_hex: bool,
    place: Place,
) -> Result<Value, CauseOrMemory>
    ensures ok { IfOk result (λ value. value_asked place is_hex word.now ≡ Ok value) }
    ensures wrong { IfErr result (IsCauseOf (value_asked place is_hex word.now)) }
{
    if !is_hex {
        return Ok(value_of_bytes(word, place)?);
    }
    let bytes = decoded(alloc, word, place)?;
    Ok(value_of_bytes(bytes.as_slice(), place)?)
}

// The bytes that hexadecimal digits spell, two digits a byte.
fn decoded(alloc: Global, word: &[u8], place: Place) -> Result<Vec<u8>, CauseOrMemory>
    ensures ok { IfOk result (λ bytes. bytes_asked place true word.now ≡ Ok bytes.items) }
    ensures wrong { IfErr result (IsCauseOf (bytes_asked place true word.now)) }
{
    match hex::decode(alloc, word) {
        Ok(bytes) => Ok(bytes),
        Err(FromHexError::OutOfMemory) => Err(CauseOrMemory::Memory),
        Err(_) => Err(CauseOrMemory::Wrong(WrongCause::NotHex(place))),
    }
}

fn key_of_bytes(bytes: &[u8]) -> Result<Key, WrongCause>
    ensures { result ≡ key_ranged bytes.now }
{
    match Key::from_bytes(bytes) {
        Ok(key) => Ok(key),
        Err(_) if bytes.is_empty() => Err(WrongCause::KeyEmpty),
        Err(_) => Err(WrongCause::KeyTooLong {
            length: bytes.len(),
        }),
    }
}

fn value_of_bytes(bytes: &[u8], place: Place) -> Result<Value, WrongCause>
    ensures { result ≡ value_ranged place bytes.now }
{
    Value::from_bytes(bytes).map_err(|_| WrongCause::ValueTooLong {
        place,
        length: bytes.len(),
    })
}
