//! The columns that a header gives.
ghost use Rattle.std.specs.Prelude.{◌≡◌, IfOk, count_by, map, nat_lt};
ghost use Rattle.exh_pair_text.specs.Header.{both_columns, column_named, columns_by, columns_in, is_named, named_columns, names_of, place_from};

use crate::reading::own_text;
use crate::{Columns, Field, FieldNames, PairFormat, WrongHeader, fields_of};
use std::alloc::{AllocError, Global};

/// The columns of the records behind a header, which is a line without its newline: those of these names, or both of two, where
/// no names are asked for. An `Err`: out of memory.
#[tactic(auto, unfolding(crate::specs::Header::columns_in))]
pub fn columns_of(
    alloc: Global,
    names: Option<&FieldNames<'_>>,
    header: &[u8],
) -> Result<Result<Columns, WrongHeader>, AllocError>
    ensures { IfOk result (λ columns. columns ≡ columns_in (names_of names.entry) header.now) }
{
    match fields_of(alloc, own_text(PairFormat::Csv, header))? {
        Ok(fields) => Ok(columns_by(names, &fields)),
        Err(wrong) => Ok(Err(WrongHeader::NoRecord(wrong))),
    }
}

// The columns that fields are the names of.
fn columns_by(names: Option<&FieldNames<'_>>, fields: &[Vec<u8>]) -> Result<Columns, WrongHeader>
    ensures { result ≡ columns_by (names_of names.entry) (map (λ field. field.items) fields.now) }
{
    match names {
        Some(names) => named_columns(names.key, names.value, fields),
        None => both_columns(fields),
    }
}

// The columns of these names.
#[tactic(auto, unfolding(crate::specs::Header::named_columns))]
fn named_columns(key: &str, value: &str, fields: &[Vec<u8>]) -> Result<Columns, WrongHeader>
    ensures { result ≡ named_columns key.now value.now (map (λ field. field.items) fields.now) }
{
    let key = column_named(Field::Key, key, fields)?;
    let value = column_named(Field::Value, value, fields)?;
    Ok(Columns {
        key,
        value,
        width: fields.len(),
    })
}

// Both of two columns.
#[tactic(auto, unfolding(crate::specs::Header::both_columns))]
fn both_columns(fields: &[Vec<u8>]) -> Result<Columns, WrongHeader>
    ensures { result ≡ both_columns (map (λ field. field.items) fields.now) }
{
    if fields.len() == 2 {
        Ok(Columns::two())
    } else {
        Err(WrongHeader::NotTwo {
            count: fields.len(),
        })
    }
}

// The place of the only field that is a name.
fn column_named(field: Field, name: &str, fields: &[Vec<u8>]) -> Result<usize, WrongHeader>
    ensures { result ≡ column_named field name.now (map (λ field. field.items) fields.now) }
{
    match place_in(name, fields) {
        None => Err(WrongHeader::NoColumn(field)),
        Some(_) if is_repeated(name, fields) => Err(WrongHeader::TwoColumns(field)),
        Some(at) => Ok(at),
    }
}

// The first place of a name among fields.
fn place_in(name: &str, fields: &[Vec<u8>]) -> Option<usize>
    ensures { result ≡ place_from 0 name.now (map (λ field. field.items) fields.now) }
{
    let mut at = 0;
    for field in fields {
        if is_name(name, field.as_slice()) {
            return Some(at);
        }
        at += 1;
    }
    None
}

// Whether more than one of the fields is a name.
fn is_repeated(name: &str, fields: &[Vec<u8>]) -> bool
    ensures { result ≡ nat_lt 1 (count_by (is_named name.now) (map (λ field. field.items) fields.now)) }
{
    count_in(name, fields) > 1
}

// How many of the fields are a name.
fn count_in(name: &str, fields: &[Vec<u8>]) -> usize
    ensures { result ≡ count_by (is_named name.now) (map (λ field. field.items) fields.now) }
{
    fields
        .iter()
        .filter(|field| is_name(name, field.as_slice()))
        .count()
}

// Whether a field is a name.
fn is_name(name: &str, field: &[u8]) -> bool
    ensures { result ≡ is_named name.now field.now }
{
    field == name.as_bytes()
}
