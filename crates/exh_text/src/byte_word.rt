ghost use Rattle.std.specs.Prelude.{◌≡◌, ◌≤◌, ◌/◌, [], length, is_some, unwrap_or, IsSome, IfSome};
ghost use Rattle.std.specs.Option.{SomeIff};
ghost use Rattle.exh_page.specs.declared.key.TheConstants.{KEY_LIMIT};
ghost use Rattle.exh_page.specs.declared.value.TheConstants.{VALUE_LIMIT};
ghost use Rattle.exh_text.specs.ByteWord.{bytes_of_word, hex_digit, hex_bytes, key_in_range, pair_in_range, spelled_pair};
ghost use Rattle.exh_text.specs.LineFault.{ranged};

use crate::LineFault;
use exh_page::{KEY_LIMIT, Key, VALUE_LIMIT, Value};
use std::marker::Model;

/// A word that stands for bytes, however many: a word of bytes 21 to 7e that doesn't begin with `#`, or `#` and
/// lower-case hexadecimal digits, two a byte. It keeps the word, and is seen as the bytes.
#[derive(Drop)]
pub struct ByteWord<'a> {
    word: &'a [u8],
}

impl<'a> Model for ByteWord<'a> {
    ghost use Rattle.std.specs.Prelude.{ℕ, List, [], unwrap_or, IsSome};
    ghost use Rattle.exh_text.specs.ByteWord.{bytes_of_word};

    ghost Value = { List ℕ };

    ghost view = { λ a. unwrap_or (bytes_of_word a.word.now) [] };

    ghost invariant = { λ a. IsSome (bytes_of_word a.word.now) };
}

impl<'a> ByteWord<'a> {
    /// `None` where the word stands for no bytes.
    pub fn parse(word: &'a [u8]) -> Option<Self>
        ensures { result ≡ bytes_of_word word.now }
    {
        if stands_for_bytes(word) {
            Some(ByteWord { word })
        } else {
            None
        }
    }

    /// The value of these bytes, `None` where there are more than 128. It takes no memory.
    #[tactic(auto, using(crate::proofs::ByteWords::word_cases))]
    pub fn value(&self) -> Option<Value>
        ensures { SomeIff result (length self.now ≤ VALUE_LIMIT) self.now }
    {
        match self.word {
            [b'#', digits @ ..] => decode_hex(digits),
            word => Value::from_bytes(word).ok(),
        }
    }

    /// The key of these bytes, `None` where there are none or more than 64. It takes no memory.
    #[tactic(auto, using(crate::proofs::ByteWords::word_cases))]
    pub fn key(&self) -> Option<Key>
        ensures { SomeIff result ((1 ≤ length self.now) × (length self.now ≤ KEY_LIMIT)) self.now }
    {
        match self.word {
            [b'#', digits @ ..] => decode_hex_key(digits),
            word => Key::from_bytes(word).ok(),
        }
    }
}

/// The key that a word spells. `Syntax`: it spells no bytes. `Range`: it spells none or more than 64.
pub fn parse_key(word: &[u8]) -> Result<Key, LineFault>
    ensures { result ≡ ranged key_in_range (bytes_of_word word.now) }
{
    let word = ByteWord::parse(word).ok_or(LineFault::Syntax)?;
    word.key().ok_or(LineFault::Range)
}

/// The key and the value that two words spell. `Syntax`: one of them spells no bytes. `Range`: both do, and the key has
/// none or more than 64 of them, or the value more than 128.
pub fn parse_pair(key: &[u8], value: &[u8]) -> Result<(Key, Value), LineFault>
    ensures { result ≡ ranged pair_in_range (spelled_pair key.now value.now) }
{
    let key = ByteWord::parse(key).ok_or(LineFault::Syntax)?;
    let value = ByteWord::parse(value).ok_or(LineFault::Syntax)?;
    let key = key.key().ok_or(LineFault::Range)?;
    let value = value.value().ok_or(LineFault::Range)?;
    Ok((key, value))
}

#[tactic(auto, using(crate::proofs::ByteWords::word_cases))]
fn stands_for_bytes(word: &[u8]) -> bool
    ensures { result ≡ is_some (bytes_of_word word.now) }
{
    match word {
        [] => false,
        [b'#', digits @ ..] => is_hex(digits),
        _ => word.iter().all(u8::is_ascii_graphic),
    }
}

// Whether these are hexadecimal digits in lower case, two for each byte.
fn is_hex(digits: &[u8]) -> bool
    ensures { result ≡ is_some (hex_bytes digits.now) }
{
    digits.len() % 2 == 0 && digits.iter().all(|digit| is_hex_digit(*digit))
}

#[tactic(auto, unfolding(crate::specs::ByteWord::hex_digit))]
fn is_hex_digit(digit: u8) -> bool
    ensures { result ≡ is_some (hex_digit digit) }
{
    matches!(digit, b'0'..=b'9' | b'a'..=b'f')
}

// The value of lower-case hexadecimal digits, `None` where they spell more than 128 bytes.
fn decode_hex(digits: &[u8]) -> Option<Value>
    requires { IsSome (hex_bytes digits.now) }
    ensures { SomeIff result (length (unwrap_or (hex_bytes digits.now) []) ≤ VALUE_LIMIT) (unwrap_or (hex_bytes digits.now) []) }
{
    let mut bytes = [0; VALUE_LIMIT];
    let len = digits.len() / 2;
    if len > VALUE_LIMIT {
        return None;
    }
    decode_into(digits, &mut bytes[..len]);
    Value::from_bytes(&bytes[..len]).ok()
}

// The key of lower-case hexadecimal digits, `None` where they spell no bytes or more than 64.
fn decode_hex_key(digits: &[u8]) -> Option<Key>
    requires { IsSome (hex_bytes digits.now) }
    ensures { let bytes = unwrap_or (hex_bytes digits.now) [] in SomeIff result ((1 ≤ length bytes) × (length bytes ≤ KEY_LIMIT)) bytes }
{
    let mut bytes = [0; KEY_LIMIT];
    let len = digits.len() / 2;
    if len > KEY_LIMIT {
        return None;
    }
    decode_into(digits, &mut bytes[..len]);
    Key::from_bytes(&bytes[..len]).ok()
}

// Writes the bytes that lower-case hexadecimal digits spell.
fn decode_into(digits: &[u8], out: &mut [u8])
    requires spelled { IsSome (hex_bytes digits.now) }
    requires room { length out.old ≡ length digits.now / 2 }
    ensures { out.new ≡ unwrap_or (hex_bytes digits.now) [] }
{
    hex::decode_to_slice(digits, out).unwrap();
}
