use crate::{Field, WrongRecord};
use thiserror::Error;

/// Why a line is no pair. Its text is a sentence without a full stop. Bytes of a line are counted from 1 on.
#[derive(Clone, Copy, Debug, PartialEq, Eq, Error)]
pub enum WrongLine {
    /// Nothing parts a key from a value.
    #[error("it has no value")]
    NoValue,
    /// The key has no bytes.
    #[error("its key has no bytes")]
    EmptyKey,
    /// The key has so many bytes, more than 64.
    #[error("a key has at most 64 bytes, and this one has {length}")]
    LongKey { length: usize },
    /// The value has so many bytes, more than 128.
    #[error("a value has at most 128 bytes, and this one has {length}")]
    LongValue { length: usize },
    /// The key or value isn't one word of bytes 21 to 7e that doesn't begin with `#`, and isn't `#` and lower-case
    /// hexadecimal digits, two a byte.
    #[error("its {0} is no word of a text of pairs")]
    NoWord(Field),
    /// No two hexadecimal digits begin at this byte.
    #[error("at byte {at} two hexadecimal digits are wanted")]
    NoDigits { at: usize },
    /// The backslash at this byte begins no escape.
    #[error("the backslash at byte {at} begins none of \\t, \\n, \\r, \\\\ and \\xHH")]
    NoEscape { at: usize },
    /// A tab stands at this byte, behind the one between key and value.
    #[error("a second tab stands at byte {at}: in a value a tab is written \\t")]
    SecondTab { at: usize },
    /// The line is no JSON in UTF-8.
    #[error("it is no JSON object")]
    NoJson,
    /// The object has neither the field of the key or value nor the one with its hexadecimal digits.
    #[error("it has neither the field for its {0} nor that with `_hex` behind the name")]
    NoField(Field),
    /// The field of the key or value has no string.
    #[error("the field for its {0} has no string")]
    NoString(Field),
    /// The string has another byte than hexadecimal digits, or an odd number of them.
    #[error("its {0} in hexadecimal digits has another byte, or an odd number of digits")]
    NoHex(Field),
    /// The object has both fields.
    #[error("it has both the field for its {0} and that with `_hex` behind the name")]
    TwoFields(Field),
    /// The line is no record of comma-separated fields.
    #[error("{0}")]
    NoRecord(WrongRecord),
    /// The record has so many fields, and another number is wanted.
    #[error("{wanted} fields are wanted, and it has {count}")]
    Fields { count: usize, wanted: usize },
}
