//! How keys and values are printed: as their bytes, as words, or in hexadecimal digits.
ghost use Rattle.std.specs.Prelude.{◌≡◌, ◌++◌, OnOk, true};
ghost use Rattle.exh_everyday.specs.Answers.{listed, shown};

use exh_page::Value;
use exh_text::{push_text, push_value};
use std::alloc::AllocError;

/// Adds a value as an answer has it: its bytes as they are, or hexadecimal digits, two a byte. Where memory runs out, a
/// beginning of that is added.
pub(crate) fn push_shown(out: &mut Vec<u8>, is_hex: bool, bytes: &[u8]) -> Result<(), AllocError>
    ensures { OnOk result (out.new.items ≡ out.old.items ++ shown is_hex bytes.now) }
{
    if is_hex {
        push_digits(out, bytes)
    } else {
        out.extend_from_slice(bytes)
    }
}

/// Adds a key or a value as a list has it: as a word of a text of pairs, or hexadecimal digits.
pub(crate) fn push_listed(out: &mut Vec<u8>, is_hex: bool, bytes: &[u8]) -> Result<(), AllocError>
    ensures { OnOk result (out.new.items ≡ out.old.items ++ listed is_hex bytes.now) }
{
    if is_hex {
        push_digits(out, bytes)
    } else {
        push_value(out, bytes)
    }
}

/// Adds words and a value behind them.
pub(crate) fn push_answer(
    out: &mut Vec<u8>,
    words: &str,
    is_hex: bool,
    value: &Value,
) -> Result<(), AllocError>
    ensures { OnOk result (out.new.items ≡ out.old.items ++ (words.now ++ shown is_hex value.now)) }
{
    push_text(out, words)?;
    push_shown(out, is_hex, value.as_bytes())
}

// Adds hexadecimal digits, two a byte.
fn push_digits(out: &mut Vec<u8>, bytes: &[u8]) -> Result<(), AllocError>
    ensures { OnOk result (out.new.items ≡ out.old.items ++ shown true bytes.now) }
{
    let alloc = *out.allocator();
    let digits = hex::encode(alloc, bytes)?;
    push_text(out, digits.as_str())
}
