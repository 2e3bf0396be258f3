//! The pair of a line that is a JSON object.
ghost use Rattle.std.specs.Prelude.{◌≡◌, IfOk, string_bytes};
ghost use Rattle.std.specs.Option.{option_map};
ghost use Rattle.json.specs.Find.{get};
ghost use Rattle.json.specs.Value.{value_view};
ghost use Rattle.exh_pair_text.specs.Parts.{digits_of};
ghost use Rattle.exh_pair_text.specs.Reading.{json_bytes, json_pair, named_pair, object_pair, string_in};
ghost use Rattle.exh_pair_text.specs.Reads.{string_list};
ghost use Rattle.exh_pair_text.specs.Spelled.{all_spelled};

use crate::spelled::Spelled;
use crate::{Field, FieldNames, WrongLine};
use exh_page::{Key, Value};
use json::{Error, Scratch, Value as Json};
use std::alloc::{AllocError, Global};

/// The pair of a line, which is to be a JSON object in UTF-8 with fields of these names.
#[tactic(auto, using(crate::proofs::JsonCases::json_ok, crate::proofs::JsonCases::json_refused))]
pub(crate) fn json_pair(
    alloc: Global,
    is_hex: bool,
    names: &FieldNames<'_>,
    line: &[u8],
) -> Result<Result<(Key, Value), WrongLine>, AllocError>
    ensures { IfOk result (λ pair. pair ≡ json_pair is_hex names.now.key.now names.now.value.now line.now) }
{
    let mut scratch = Scratch::new(alloc);
    match Json::from_slice(alloc, line, &mut scratch) {
        Ok(json) => object_pair(alloc, is_hex, names, &json),
        Err(Error::Invalid) => Ok(Err(WrongLine::NoJson)),
        Err(_) => Err(AllocError),
    }
}

// The pair of an object with fields of these names, or with those that have hexadecimal digits.
#[tactic(auto, unfolding(crate::specs::Reading::object_pair))]
fn object_pair(
    alloc: Global,
    is_hex: bool,
    names: &FieldNames<'_>,
    json: &Json<'_>,
) -> Result<Result<(Key, Value), WrongLine>, AllocError>
    ensures { IfOk result (λ pair. pair ≡ object_pair is_hex names.now.key.now names.now.value.now (value_view json.now)) }
{
    let key_digits = digits_name(alloc, names.key)?;
    let value_digits = digits_name(alloc, names.value)?;
    Ok(named_pair(
        is_hex,
        names.key,
        key_digits.as_str(),
        names.value,
        value_digits.as_str(),
        json,
    ))
}

// The name of the field that has the digits of a named one.
fn digits_name(alloc: Global, name: &str) -> Result<String, AllocError>
    ensures { IfOk result (λ digits. string_bytes digits ≡ digits_of name.now) }
{
    let mut digits = String::from_str(alloc, name)?;
    digits.push_str("_hex")?;
    Ok(digits)
}

// The pair of an object by the names of both fields of the key, and those of the value.
#[tactic(auto, unfolding(crate::specs::Reading::named_pair))]
fn named_pair(
    is_hex: bool,
    key: &str,
    key_digits: &str,
    value: &str,
    value_digits: &str,
    json: &Json<'_>,
) -> Result<(Key, Value), WrongLine>
    ensures { result ≡ named_pair is_hex key.now key_digits.now value.now value_digits.now (value_view json.now) }
{
    let key = json_bytes(Field::Key, is_hex, key, key_digits, json)?.key()?;
    let value = json_bytes(Field::Value, is_hex, value, value_digits, json)?.value()?;
    Ok((key, value))
}

// The bytes of a key or a value, by the names of both its fields.
#[tactic(auto, unfolding(crate::specs::Reading::json_bytes))]
fn json_bytes(
    field: Field,
    is_hex: bool,
    name: &str,
    digits_name: &str,
    json: &Json<'_>,
) -> Result<Spelled, WrongLine>
    ensures { result ≡ all_spelled (json_bytes field is_hex name.now digits_name.now (value_view json.now)) }
{
    let text = string_in(field, name, json)?;
    let digits = string_in(field, digits_name, json)?;
    match (text, digits) {
        (None, None) => Err(WrongLine::NoField(field)),
        (Some(_), Some(_)) => Err(WrongLine::TwoFields(field)),
        (None, Some(digits)) => Spelled::of_digits(field, digits.as_bytes()),
        (Some(text), None) if is_hex => Spelled::of_digits(field, text.as_bytes()),
        (Some(text), None) => Ok(Spelled::of_text(text.as_bytes())),
    }
}

// The string of a field, where there is that field.
fn string_in<'a>(field: Field, name: &str, json: &Json<'a>) -> Result<Option<&'a str>, WrongLine>
    ensures { string_list result ≡ string_in field (get name.now (value_view json.now)) }
{
    let Some(found) = json.get(name) else {
        return Ok(None);
    };
    match found.as_str() {
        Some(text) => Ok(Some(text)),
        None => Err(WrongLine::NoString(field)),
    }
}
