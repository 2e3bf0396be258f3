//! The texts of faults and names that no line of the program has, and records put one by one.

use exh_codec::ImageFault;
use exh_keyer::AnyKeyer;
use exh_notice::NoticeFault;
use exh_page::{Key, Record, Records, SizeFault, Value};
use exh_prefix::Prefix;
use exh_stores::PagesFault;
use std::alloc::{AllocError, Global};
use std::fmt::Display;

fn prints<T: Display>(alloc: Global, told: &T, want: &str) -> Result<bool, AllocError> {
    Ok(told.to_string(alloc)?.as_str() == want)
}

fn are_printed(alloc: Global) -> Result<bool, AllocError> {
    let size = "a key has 1 to 64 bytes, and a value at most 128";
    let digest = "the digest isn't that of the content";
    let kind = "the kind byte is neither 1 nor 2";
    Ok(
        prints(alloc, &SizeFault, size)?
            && prints(alloc, &PagesFault::Page, "a page is out of reach")?
            && prints(alloc, &ImageFault::Digest, digest)?
            && prints(alloc, &NoticeFault::Kind, kind)?
            && prints(alloc, &AnyKeyer::Plain, "plain")?
            && prints(alloc, &Prefix::of_number(4, 6), "0110")?,
    )
}

#[test]
fn texts(rt: HostRuntime) {
    assert!(rt; matches!(are_printed(rt.alloc()), Ok(true)));
}

fn record(pseudokey: u64, key: &[u8]) -> Option<Record> {
    Some(Record {
        pseudokey,
        key: Key::from_bytes(key).ok()?,
        value: Value::from_bytes(key).ok()?,
    })
}

// Puts a record, and answers whether it replaces this value.
fn puts(records: &mut Records, item: Record, old: Option<Value>) -> bool {
    matches!(records.put(item), Ok(replaced) if replaced == old)
}

// Whether three records that are put stand by pseudokey, then by key.
fn rise(records: &mut Records) -> Option<bool> {
    let (first, second, third) = (record(1, b"z")?, record(2, b"a")?, record(2, b"a\0")?);
    let are_put = puts(records, third, None)
        && puts(records, first, None)
        && puts(records, second, None)
        && puts(records, second, Some(second.value));
    Some(are_put && stand(records, [first, second, third]))
}

fn stand(records: &Records, want: [Record; 3]) -> bool {
    let [first, second, third] = want;
    records.get(0) == Some(first)
        && records.get(1) == Some(second)
        && records.get(2) == Some(third)
        && records.len() == 3
}

#[test]
fn records_rise(rt: HostRuntime) {
    assert!(rt; rise(&mut Records::new(rt.alloc())) == Some(true));
}
