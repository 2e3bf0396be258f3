//! The pair of a line that is a record of comma-separated fields.
ghost use Rattle.std.specs.Prelude.{◌≡◌, map, IfOk};
ghost use Rattle.exh_pair_text.specs.Reading.{csv_bytes, csv_pair, fields_pair, two_spelled};
ghost use Rattle.exh_pair_text.specs.Spelled.{all_spelled};

use crate::spelled::Spelled;
use crate::{Columns, Field, WrongLine, fields_of};
use exh_page::{Key, Value};
use std::alloc::{AllocError, Global};

/// The pair of a line, which is to be a record of these columns.
#[tactic(auto, unfolding(crate::specs::Reading::csv_pair))]
pub(crate) fn csv_pair(
    alloc: Global,
    is_hex: bool,
    columns: Columns,
    line: &[u8],
) -> Result<Result<(Key, Value), WrongLine>, AllocError>
    ensures { IfOk result (λ pair. pair ≡ csv_pair is_hex columns line.now) }
{
    match fields_of(alloc, line)? {
        Ok(fields) => Ok(fields_pair(is_hex, columns, &fields)),
        Err(wrong) => Ok(Err(WrongLine::NoRecord(wrong))),
    }
}

// The pair of the fields of a record.
#[tactic(auto, using(crate::proofs::Records::chosen, crate::proofs::Records::unchosen))]
fn fields_pair(
    is_hex: bool,
    columns: Columns,
    fields: &[Vec<u8>],
) -> Result<(Key, Value), WrongLine>
    ensures { result ≡ fields_pair is_hex columns (map (λ field. field.items) fields.now) }
{
    if columns.fit(fields.len()) {
        two_spelled(is_hex, &fields[columns.key], &fields[columns.value])
    } else {
        Err(WrongLine::Fields {
            count: fields.len(),
            wanted: columns.width,
        })
    }
}

// The pair that a key and a value spell.
fn two_spelled(is_hex: bool, key: &[u8], value: &[u8]) -> Result<(Key, Value), WrongLine>
    ensures { result ≡ two_spelled is_hex key.now value.now }
{
    let key = csv_bytes(Field::Key, is_hex, key)?.key()?;
    let value = csv_bytes(Field::Value, is_hex, value)?.value()?;
    Ok((key, value))
}

// The bytes of a field, or those that its hexadecimal digits spell.
fn csv_bytes(field: Field, is_hex: bool, text: &[u8]) -> Result<Spelled, WrongLine>
    ensures { result ≡ all_spelled (csv_bytes field is_hex text.now) }
{
    if is_hex {
        Spelled::of_digits(field, text)
    } else {
        Ok(Spelled::of_text(text))
    }
}
