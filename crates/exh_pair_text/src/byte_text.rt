//! How a byte is spelled, and which byte a text begins with.
ghost use Rattle.std.specs.Prelude.{◌≡◌, ◌+◌, ◌≤◌, ◌++◌, length, IfSome, OnOk};
ghost use Rattle.hex.specs.Hex.{encode_lower, hex_digit_value};
ghost use Rattle.exh_text.specs.Printing.{Keeps};
ghost use Rattle.exh_pair_text.specs.Bytes.{behind_slash, byte_text, first_byte, two_digits};

use exh_text::push_text;
use std::alloc::AllocError;

/// Adds a byte as tab-separated text spells it.
pub(crate) fn push_byte(text: &mut Vec<u8>, byte: u8) -> Result<(), AllocError>
    ensures ok { OnOk result (text.new.items ≡ text.old.items ++ byte_text byte) }
    ensures kept { Keeps text.old.items text.new.items }
{
    match byte {
        b'\t' => push_text(text, "\\t"),
        b'\n' => push_text(text, "\\n"),
        b'\r' => push_text(text, "\\r"),
        b'\\' => push_text(text, "\\\\"),
        b' '..=b'~' => text.extend_from_slice([byte].as_slice()),
        _ => {
            push_text(text, "\\x")?;
            push_digits(text, [byte].as_slice())
        }
    }
}

/// Adds bytes in hexadecimal digits, two a byte.
pub(crate) fn push_digits(text: &mut Vec<u8>, bytes: &[u8]) -> Result<(), AllocError>
    ensures ok { OnOk result (text.new.items ≡ text.old.items ++ encode_lower bytes.now) }
    ensures kept { Keeps text.old.items text.new.items }
{
    let alloc = *text.allocator();
    let digits = hex::encode(alloc, bytes)?;
    push_text(text, digits.as_str())
}

/// The byte that a text begins with, and how many bytes of the text spell it. `None` where it begins with none.
#[tactic(auto, using(crate::proofs::Cases::first_cases))]
pub(crate) fn first_byte(is_hex: bool, text: &[u8]) -> Option<(u8, usize)>
    ensures byte { result ≡ first_byte is_hex text.now }
    ensures some { IfSome result (λ found. (1 ≤ found.1) × (found.1 ≤ length text.now)) }
{
    if is_hex {
        return Some((two_digits(text)?, 2));
    }
    match text {
        [b'\\', rest @ ..] => behind_slash(rest),
        [] | [b'\t', ..] => None,
        [byte, ..] => Some((*byte, 1)),
    }
}

// The byte of an escape, by what stands behind its backslash, and how many bytes the escape has.
#[tactic(auto, using(crate::proofs::Cases::slash_cases))]
fn behind_slash(text: &[u8]) -> Option<(u8, usize)>
    ensures byte { result ≡ behind_slash text.now }
    ensures some { IfSome result (λ found. (1 ≤ found.1) × (found.1 ≤ 1 + length text.now)) }
{
    match text {
        [b't', ..] => Some((b'\t', 2)),
        [b'n', ..] => Some((b'\n', 2)),
        [b'r', ..] => Some((b'\r', 2)),
        [b'\\', ..] => Some((b'\\', 2)),
        [b'x', digits @ ..] => Some((two_digits(digits)?, 4)),
        _ => None,
    }
}

// The byte of two hexadecimal digits, in either case.
fn two_digits(text: &[u8]) -> Option<u8>
    ensures byte { result ≡ two_digits text.now }
    ensures some { IfSome result (λ _. 2 ≤ length text.now) }
{
    match text {
        [high, low, ..] => Some(16 * digit_value(*high)? + digit_value(*low)?),
        _ => None,
    }
}

// The number of a hexadecimal digit, in either case.
fn digit_value(digit: u8) -> Option<u8>
    ensures value { result ≡ hex_digit_value digit }
    ensures small { IfSome result (λ value. value ≤ 15) }
{
    match digit {
        b'0'..=b'9' => Some(digit - b'0'),
        b'a'..=b'f' => Some(digit - b'a' + 10),
        b'A'..=b'F' => Some(digit - b'A' + 10),
        _ => None,
    }
}
