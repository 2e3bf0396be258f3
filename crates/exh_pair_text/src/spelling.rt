//! How a field is written.
ghost use Rattle.std.specs.Prelude.{◌≡◌, ◌++◌, [], ◌∷◌, OnOk, flat_map};
ghost use Rattle.std.specs.List.{list_any};
ghost use Rattle.exh_pair_text.specs.Rows.{Keeps, doubled, field_words, is_special, needs_quotes, quoted};

use std::alloc::AllocError;

/// Adds a field: in quotes where it has a comma, a quote, a carriage return or a newline, or begins with `#`, and as it is
/// otherwise. Out of memory it leaves what was there, with something of the field behind it.
#[tactic(auto, unfolding(crate::specs::Rows::field_words))]
pub fn push_field(text: &mut Vec<u8>, bytes: &[u8]) -> Result<(), AllocError>
    ensures ok { OnOk result (text.new.items ≡ text.old.items ++ field_words bytes.now) }
    ensures kept { Keeps text.old.items text.new.items }
{
    if needs_quotes(bytes) {
        push_quoted(text, bytes)
    } else {
        text.extend_from_slice(bytes)
    }
}

// Adds bytes in quotes.
fn push_quoted(text: &mut Vec<u8>, bytes: &[u8]) -> Result<(), AllocError>
    ensures ok { OnOk result (text.new.items ≡ text.old.items ++ quoted bytes.now) }
    ensures kept { Keeps text.old.items text.new.items }
{
    text.extend_from_slice(b"\"")?;
    push_doubled(text, bytes)?;
    text.extend_from_slice(b"\"")
}

// Adds bytes, each quote of them twice.
fn push_doubled(text: &mut Vec<u8>, bytes: &[u8]) -> Result<(), AllocError>
    ensures ok { OnOk result (text.new.items ≡ text.old.items ++ flat_map doubled bytes.now) }
    ensures kept { Keeps text.old.items text.new.items }
{
    for byte in bytes {
        push_byte(text, *byte)?;
    }
    Ok(())
}

// Adds a byte, a quote twice.
fn push_byte(text: &mut Vec<u8>, byte: u8) -> Result<(), AllocError>
    ensures ok { OnOk result (text.new.items ≡ text.old.items ++ doubled byte) }
    ensures kept { Keeps text.old.items text.new.items }
{
    if byte == b'"' {
        text.extend_from_slice(b"\"\"")
    } else {
        text.extend_from_slice([byte].as_slice())
    }
}

// Whether a field is read as it is only in quotes.
#[tactic(auto, unfolding(crate::specs::Rows::needs_quotes))]
fn needs_quotes(bytes: &[u8]) -> bool
    ensures { result ≡ needs_quotes bytes.now }
{
    bytes.starts_with(b"#") || has_special(bytes)
}

// Whether one of the bytes stands in quoted fields alone.
fn has_special(bytes: &[u8]) -> bool
    ensures { result ≡ list_any is_special bytes.now }
{
    let mut found = false;
    for byte in bytes {
        found = found || is_special(*byte);
    }
    found
}

// Whether a byte stands in quoted fields alone.
fn is_special(byte: u8) -> bool
    ensures { result ≡ is_special byte }
{
    match byte {
        b'"' | b',' | b'\r' | b'\n' => true,
        _ => false,
    }
}
