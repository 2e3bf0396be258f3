//! The bytes that a part of a line spells, as far as a key or a value can have them.
ghost use Rattle.std.specs.Prelude.{◌≡◌, ◌+◌, ◌<◌, ◌≤◌, ◌^◌, ℕ, List, [], length, unwrap_or, IsSome};
ghost use Rattle.std.specs.Option.{option_map};
ghost use Rattle.exh_text.specs.ByteWord.{bytes_of_word};
ghost use Rattle.exh_pair_text.specs.Reading.{bytes_from, field_bytes, hex_bytes, key_of_bytes, value_of_bytes, wrong_byte};
ghost use Rattle.exh_pair_text.specs.Spelled.{all_spelled, spelled};

use crate::byte_text::first_byte;
use crate::separated::Separated;
use crate::{Field, WrongLine};
use arrayvec::ArrayVec;
use exh_page::{Key, VALUE_LIMIT, Value};
use exh_text::ByteWord;

/// Bytes, or how many there are, where that is more than a value has.
#[derive(Clone, Copy)]
pub(crate) enum Spelled {
    Few(Value),
    Many(usize),
}

impl Spelled {
    /// The bytes of a key or a value, which begins at this place of its line.
    #[tactic(auto, unfolding(crate::specs::Reading::field_bytes))]
    pub(crate) fn read(
        format: Separated,
        is_hex: bool,
        field: Field,
        at: usize,
        text: &[u8],
    ) -> Result<Spelled, WrongLine>
        requires { at + length text.now ≤ 2 ^ 64 }
        ensures { result ≡ all_spelled (field_bytes format is_hex field at text.now) }
    {
        match format {
            Separated::Words if !is_hex => of_word(text).ok_or(WrongLine::NoWord(field)),
            _ => of_bytes(is_hex, at, text),
        }
    }

    /// The bytes of a string of hexadecimal digits.
    #[tactic(auto, unfolding(crate::specs::Reading::hex_bytes))]
    pub(crate) fn of_digits(field: Field, text: &[u8]) -> Result<Spelled, WrongLine>
        ensures { result ≡ all_spelled (hex_bytes field text.now) }
    {
        match of_bytes(true, 1, text) {
            Ok(bytes) => Ok(bytes),
            Err(_) => Err(WrongLine::NoHex(field)),
        }
    }

    /// Bytes that stand for themselves.
    pub(crate) fn of_text(text: &[u8]) -> Spelled
        ensures { result ≡ spelled text.now }
    {
        match Value::from_bytes(text) {
            Ok(value) => Spelled::Few(value),
            Err(_) => Spelled::Many(text.len()),
        }
    }

    /// The key of these bytes.
    #[tactic(auto, unfolding(crate::specs::Reading::key_of_bytes))]
    pub(crate) fn key(&self) -> Result<Key, WrongLine>
        ensures { (bytes : List ℕ) → self.now ≡ spelled bytes → result ≡ key_of_bytes bytes }
    {
        let bytes = match self {
            Spelled::Few(value) => value.as_bytes(),
            Spelled::Many(count) => return Err(WrongLine::LongKey { length: *count }),
        };
        if bytes.is_empty() {
            return Err(WrongLine::EmptyKey);
        }
        match Key::from_bytes(bytes) {
            Ok(key) => Ok(key),
            Err(_) => Err(WrongLine::LongKey {
                length: bytes.len(),
            }),
        }
    }

    /// The value of these bytes.
    #[tactic(auto, unfolding(crate::specs::Reading::value_of_bytes))]
    pub(crate) fn value(self) -> Result<Value, WrongLine>
        ensures { (bytes : List ℕ) → self ≡ spelled bytes → result ≡ value_of_bytes bytes }
    {
        match self {
            Spelled::Few(value) => Ok(value),
            Spelled::Many(count) => Err(WrongLine::LongValue { length: count }),
        }
    }
}

// The bytes that a word stands for, `None` where it stands for none.
fn of_word(word: &[u8]) -> Option<Spelled>
    ensures { result ≡ option_map spelled (bytes_of_word word.now) }
{
    let bytes = ByteWord::parse(word)?;
    match bytes.value() {
        Some(value) => Some(Spelled::Few(value)),
        None => Some(Spelled::Many(word_length(word))),
    }
}

// How many bytes a word stands for.
#[tactic(auto, using(crate::proofs::Cases::length_cases))]
fn word_length(word: &[u8]) -> usize
    requires { IsSome (bytes_of_word word.now) }
    ensures { result ≡ length (unwrap_or (bytes_of_word word.now) []) }
{
    match word {
        [b'#', digits @ ..] => digits.len() / 2,
        _ => word.len(),
    }
}

// The bytes that a text spells, one behind the other, of which the first stands at this place of its line.
fn of_bytes(is_hex: bool, at: usize, text: &[u8]) -> Result<Spelled, WrongLine>
    requires { at + length text.now ≤ 2 ^ 64 }
    ensures { result ≡ all_spelled (bytes_from is_hex at 0 text.now) }
{
    let mut bytes = ArrayVec::<u8, VALUE_LIMIT>::new();
    let mut count = 0usize;
    let mut taken = 0usize;
    while taken < text.len() {
        let Some((byte, width)) = first_byte(is_hex, &text[taken..]) else {
            return Err(wrong_byte(is_hex, text[taken], at + taken));
        };
        let _ = bytes.try_push(byte);
        count += 1;
        taken += width;
    }
    Ok(spelled_as(&bytes, count))
}

// Why no byte begins with this one of a line.
fn wrong_byte(is_hex: bool, byte: u8, at: usize) -> WrongLine
    ensures { result ≡ wrong_byte is_hex byte at }
{
    if is_hex {
        WrongLine::NoDigits { at }
    } else if byte == b'\t' {
        WrongLine::SecondTab { at }
    } else {
        WrongLine::NoEscape { at }
    }
}

// So many bytes, which are these where a value can have them.
fn spelled_as(bytes: &ArrayVec<u8, VALUE_LIMIT>, count: usize) -> Spelled
    ensures { (all : List ℕ) → length all ≡ count → (count ≤ VALUE_LIMIT → bytes.now.items ≡ all) → result ≡ spelled all }
{
    if count > VALUE_LIMIT {
        return Spelled::Many(count);
    }
    match Value::from_bytes(bytes.as_slice()) {
        Ok(value) => Spelled::Few(value),
        Err(_) => Spelled::Many(count),
    }
}
