ghost use Rattle.std.specs.Prelude.{◌≡◌};
ghost use Rattle.exh_page.specs.Place.{place_cmp, place_of};
ghost use Rattle.exh_page.specs.KeyMap.{pair_of};
ghost use Rattle.exh_codec.specs.Cells.{IsSizedPair, record_borrowed};

use exh_page::{Key, Record, Value};
use std::cmp::Ordering;

/// A record that stands in an image, with its key's pseudokey.
#[derive(Clone, Copy, Default)]
pub(crate) struct BorrowedRecord<'a> {
    pub pseudokey: u64,
    pub key: &'a [u8],
    pub value: &'a [u8],
}

/// How a record's place compares with another's.
pub(crate) fn cmp_places(one: &BorrowedRecord<'_>, other: &BorrowedRecord<'_>) -> Ordering
    ensures { result ≡ place_cmp (place_of (record_borrowed one.now)) (place_of (record_borrowed other.now)) }
{
    one.pseudokey
        .cmp(&other.pseudokey)
        .then(one.key.cmp(&other.key))
}

/// The record itself.
pub(crate) fn to_record(item: &BorrowedRecord<'_>) -> Record
    requires { IsSizedPair (pair_of (record_borrowed item.now)) }
    ensures { result ≡ record_borrowed item.now }
{
    Record {
        pseudokey: item.pseudokey,
        key: Key::from_bytes(item.key).unwrap(),
        value: Value::from_bytes(item.value).unwrap(),
    }
}
