//! How a pair is written as a JSON object.
ghost use Rattle.std.specs.Prelude.{◌≡◌, ◌++◌, [], ◌∷◌, true, false, IfNone, IfOk, IfSome, OnOk};
ghost use Rattle.hex.specs.Hex.{encode_lower};
ghost use Rattle.json.specs.Token.{key as key_token, string as string_token};
ghost use Rattle.exh_text.specs.Printing.{Keeps};
ghost use Rattle.exh_pair_text.specs.Json.{digits_name, in_digits, json_words, name_by, plain_name, string_by};

use crate::Field;
use json::Writer;
use std::alloc::{AllocError, Global};

impl Field {
    // The field of bytes in UTF-8.
    pub(crate) fn plain_name(self) -> &'static str
        ensures { result.now ≡ plain_name self }
    {
        match self {
            Field::Key => "key",
            Field::Value => "value",
        }
    }

    // The field of any bytes, in hexadecimal digits.
    pub(crate) fn digits_name(self) -> &'static str
        ensures { result.now ≡ digits_name self }
    {
        match self {
            Field::Key => "key_hex",
            Field::Value => "value_hex",
        }
    }
}

/// Adds the object of a pair.
pub(crate) fn push_object(
    text: &mut Vec<u8>,
    is_hex: bool,
    key: &[u8],
    value: &[u8],
) -> Result<(), AllocError>
    ensures ok { OnOk result (text.new.items ≡ text.old.items ++ json_words is_hex key.now value.now) }
    ensures kept { Keeps text.old.items text.new.items }
{
    let object = object_text(*text.allocator(), is_hex, key, value)?;
    text.extend_from_slice(object.as_slice())
}

// The object of a pair.
fn object_text(alloc: Global, is_hex: bool, key: &[u8], value: &[u8]) -> Result<Vec<u8>, AllocError>
    ensures { IfOk result (λ object. object.items ≡ json_words is_hex key.now value.now) }
{
    let mut writer = Writer::new(Vec::new(alloc));
    writer.begin_object()?;
    push_field(&mut writer, alloc, Field::Key, is_hex, key)?;
    push_field(&mut writer, alloc, Field::Value, is_hex, value)?;
    writer.end_object()?;
    Ok(writer.into_inner())
}

// Adds a field.
fn push_field(
    writer: &mut Writer,
    alloc: Global,
    field: Field,
    is_hex: bool,
    bytes: &[u8],
) -> Result<(), AllocError>
    ensures before { writer.new.before ≡ writer.old.before }
    ensures tokens { OnOk result (writer.new.tokens ≡ writer.old.tokens
        ++ (key_token (name_by (in_digits is_hex bytes.now) field) ∷ string_token (string_by (in_digits is_hex bytes.now) bytes.now) ∷ [])) }
{
    match plain_text(is_hex, bytes) {
        Some(text) => push_member(writer, field.plain_name(), text),
        None => push_in_digits(writer, alloc, field, bytes),
    }
}

// The text of bytes that aren't written in digits.
fn plain_text(is_hex: bool, bytes: &[u8]) -> Option<&str>
    ensures some { IfSome result (λ text. (text.now ≡ bytes.now) × (in_digits is_hex bytes.now ≡ false)) }
    ensures none { IfNone result (in_digits is_hex bytes.now ≡ true) }
{
    if is_hex {
        return None;
    }
    match std::str::from_utf8(bytes) {
        Ok(text) => Some(text),
        Err(_) => None,
    }
}

// Adds a field with hexadecimal digits.
fn push_in_digits(
    writer: &mut Writer,
    alloc: Global,
    field: Field,
    bytes: &[u8],
) -> Result<(), AllocError>
    ensures before { writer.new.before ≡ writer.old.before }
    ensures tokens { OnOk result (writer.new.tokens ≡ writer.old.tokens
        ++ (key_token (digits_name field) ∷ string_token (encode_lower bytes.now) ∷ [])) }
{
    let digits = hex::encode(alloc, bytes)?;
    push_member(writer, field.digits_name(), digits.as_str())
}

// Adds a field of this name, with a string.
fn push_member(writer: &mut Writer, name: &str, text: &str) -> Result<(), AllocError>
    ensures before { writer.new.before ≡ writer.old.before }
    ensures tokens { OnOk result (writer.new.tokens ≡ writer.old.tokens ++ (key_token name.now ∷ string_token text.now ∷ [])) }
{
    writer.key(name)?;
    writer.string(text)
}
