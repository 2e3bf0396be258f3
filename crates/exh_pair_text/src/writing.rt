//! How pairs are written, one a line, and what an export begins and ends with.
ghost use Rattle.std.specs.Prelude.{◌≡◌, ◌++◌, OnOk, decimal, flat_map};
ghost use Rattle.exh_text.specs.Printing.{Keeps};
ghost use Rattle.exh_pair_text.specs.Rows.{field_words};
ghost use Rattle.exh_pair_text.specs.Bytes.{byte_text, leading_text};
ghost use Rattle.exh_pair_text.specs.Json.{string_by};
ghost use Rattle.exh_pair_text.specs.Lines.{csv_words, end_line, field_text, key_text, opening_line, pair_line, separated_words};

use crate::byte_text::{push_byte, push_digits};
use crate::json_object::push_object;
use crate::separated::Separated;
use crate::{PairFormat, push_field as push_csv_field};
use exh_text::{push_number, push_text, push_value};
use std::alloc::AllocError;

/// Adds the line of a pair, with its newline. A key that has 1 to 64 bytes and a value that has at most 128 are read again.
pub fn push_pair(
    text: &mut Vec<u8>,
    format: PairFormat,
    is_hex: bool,
    key: &[u8],
    value: &[u8],
) -> Result<(), AllocError>
    ensures ok { OnOk result (text.new.items ≡ text.old.items ++ pair_line format is_hex key.now value.now) }
    ensures kept { Keeps text.old.items text.new.items }
{
    match format {
        PairFormat::Words => push_separated(text, Separated::Words, is_hex, key, value)?,
        PairFormat::Tsv => push_separated(text, Separated::Tsv, is_hex, key, value)?,
        PairFormat::Jsonl => push_object(text, is_hex, key, value)?,
        PairFormat::Csv => push_record(text, is_hex, key, value)?,
    }
    push_text(text, "\n")
}

/// Adds the first line of an export, which names its format.
pub fn push_opening(text: &mut Vec<u8>, format: PairFormat) -> Result<(), AllocError>
    ensures ok { OnOk result (text.new.items ≡ text.old.items ++ opening_line format) }
    ensures kept { Keeps text.old.items text.new.items }
{
    push_text(text, format.opening())?;
    push_text(text, "\n")
}

/// Adds the last line of an export, which has the number of its pairs.
pub fn push_end(text: &mut Vec<u8>, format: PairFormat, count: u64) -> Result<(), AllocError>
    ensures ok { OnOk result (text.new.items ≡ text.old.items ++ end_line format count) }
    ensures kept { Keeps text.old.items text.new.items }
{
    push_count(text, format.end_before(), count, format.end_behind())
}

// Adds a number between two texts.
fn push_count(text: &mut Vec<u8>, before: &str, count: u64, behind: &str) -> Result<(), AllocError>
    ensures ok { OnOk result (text.new.items ≡ text.old.items ++ (before.now ++ (decimal count ++ behind.now))) }
    ensures kept { Keeps text.old.items text.new.items }
{
    push_text(text, before)?;
    push_number(text, count)?;
    push_text(text, behind)
}

// Adds a key, the separating byte, and a value.
fn push_separated(
    text: &mut Vec<u8>,
    format: Separated,
    is_hex: bool,
    key: &[u8],
    value: &[u8],
) -> Result<(), AllocError>
    ensures ok { OnOk result (text.new.items ≡ text.old.items ++ separated_words format is_hex key.now value.now) }
    ensures kept { Keeps text.old.items text.new.items }
{
    push_key(text, format, is_hex, key)?;
    text.extend_from_slice([format.separator()].as_slice())?;
    push_field(text, format, is_hex, value)
}

// Adds a key, with which a line begins.
fn push_key(
    text: &mut Vec<u8>,
    format: Separated,
    is_hex: bool,
    key: &[u8],
) -> Result<(), AllocError>
    ensures ok { OnOk result (text.new.items ≡ text.old.items ++ key_text format is_hex key.now) }
    ensures kept { Keeps text.old.items text.new.items }
{
    if is_hex {
        return push_digits(text, key);
    }
    match format {
        Separated::Words => push_value(text, key),
        Separated::Tsv => push_leading(text, key),
    }
}

// Adds bytes with which a line of tab-separated text begins. A `#` in front would make a line that is cut look like an
// export's last one.
#[tactic(auto, using(crate::proofs::Cases::leading_cases))]
fn push_leading(text: &mut Vec<u8>, bytes: &[u8]) -> Result<(), AllocError>
    ensures ok { OnOk result (text.new.items ≡ text.old.items ++ leading_text bytes.now) }
    ensures kept { Keeps text.old.items text.new.items }
{
    if bytes.is_empty() || bytes[0] != b'#' {
        return push_escaped(text, bytes);
    }
    push_text(text, "\\x23")?;
    push_escaped(text, &bytes[1..])
}

// Adds a value.
fn push_field(
    text: &mut Vec<u8>,
    format: Separated,
    is_hex: bool,
    bytes: &[u8],
) -> Result<(), AllocError>
    ensures ok { OnOk result (text.new.items ≡ text.old.items ++ field_text format is_hex bytes.now) }
    ensures kept { Keeps text.old.items text.new.items }
{
    if is_hex {
        return push_digits(text, bytes);
    }
    match format {
        Separated::Words => push_value(text, bytes),
        Separated::Tsv => push_escaped(text, bytes),
    }
}

// Adds bytes, each as tab-separated text spells it.
fn push_escaped(text: &mut Vec<u8>, bytes: &[u8]) -> Result<(), AllocError>
    ensures ok { OnOk result (text.new.items ≡ text.old.items ++ flat_map byte_text bytes.now) }
    ensures kept { Keeps text.old.items text.new.items }
{
    for byte in bytes {
        push_byte(text, *byte)?;
    }
    Ok(())
}

// Adds a record of two fields.
fn push_record(text: &mut Vec<u8>, is_hex: bool, key: &[u8], value: &[u8]) -> Result<(), AllocError>
    ensures ok { OnOk result (text.new.items ≡ text.old.items ++ csv_words is_hex key.now value.now) }
    ensures kept { Keeps text.old.items text.new.items }
{
    push_csv(text, is_hex, key)?;
    push_text(text, ",")?;
    push_csv(text, is_hex, value)
}

// Adds a field: of the bytes, or of their hexadecimal digits, which need no quotes.
fn push_csv(text: &mut Vec<u8>, is_hex: bool, bytes: &[u8]) -> Result<(), AllocError>
    ensures ok { OnOk result (text.new.items ≡ text.old.items ++ field_words (string_by is_hex bytes.now)) }
    ensures kept { Keeps text.old.items text.new.items }
{
    if !is_hex {
        return push_csv_field(text, bytes);
    }
    let digits = hex::encode(*text.allocator(), bytes)?;
    push_csv_field(text, digits.as_bytes())
}
