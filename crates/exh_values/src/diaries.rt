//! Diaries and journals that are settled, and that aren't, by hand.

use exh_calls::{CALLER_LIMIT, Call, Diary, FileJournals, Journal, Reply, settle};
use exh_keyer::PlainKeyer;
use exh_page::{Key, SizeFault, Value};
use std::alloc::Global;
use std::test::Fail;

// A key; the value that a put gave it, which was new, or none of a get; and the value that a get was answered.
type Line = (&'static [u8], Option<&'static [u8]>, Option<&'static [u8]>);

// An entry of a journal: the caller, and its call.
type Row = (u32, Line);

// The journals of a file's two wards, the diaries by their callers, and how many answers they settle to.
type Case = (
    [&'static [Row]; 2],
    &'static [(u32, &'static [Line])],
    Option<u128>,
);

const PUT_00: Line = (b"\x00", Some(b"a"), None);

const PUT_40: Line = (b"\x40", Some(b"x"), None);

const PUT_80: Line = (b"\x80", Some(b"b"), None);

const GET_40: Line = (b"\x40", None, Some(b"x"));

const GET_80: Line = (b"\x80", None, Some(b"b"));

// Caller 1 was held between its look and its hop.
const HELD_LOOK: [&[Row]; 2] = [
    &[(2, PUT_00), (2, PUT_40), (2, GET_40)],
    &[(2, PUT_80), (1, GET_80)],
];

const HOLDER: &[Line] = &[PUT_00, PUT_80, PUT_40, GET_40];

const CASES: [Case; 9] = [
    (HELD_LOOK, &[(1, &[GET_80]), (2, HOLDER)], Some(5)),
    // Another order between the wards and of the diaries, and one diary more.
    (
        HELD_LOOK,
        &[
            (2, &[PUT_80, PUT_00, PUT_40, GET_40]),
            (65_535, &[]),
            (1, &[GET_80]),
        ],
        Some(5),
    ),
    ([&[], &[]], &[], Some(0)),
    // Out of order within one ward.
    (
        HELD_LOOK,
        &[(1, &[GET_80]), (2, &[PUT_40, PUT_00, PUT_80, GET_40])],
        None,
    ),
    // An entry of no caller, and of another.
    (HELD_LOOK, &[(2, HOLDER)], None),
    (HELD_LOOK, &[(3, &[GET_80]), (2, HOLDER)], None),
    // Two diaries of one caller.
    ([&[], &[]], &[(1, &[]), (1, &[])], None),
    // Another reply, and an entry in the journal of another ward.
    (
        [&[(1, GET_40)], &[]],
        &[(1, &[(b"\x40", None, Some(b""))])],
        None,
    ),
    ([&[(1, GET_80)], &[]], &[(1, &[GET_80])], None),
];

fn call_and_reply(line: Line) -> Result<(Call, Reply), SizeFault> {
    let (key, put, got) = line;
    let key = Key::from_bytes(key)?;
    match (put, got) {
        (Some(value), _) => {
            let value = Value::from_bytes(value)?;
            Ok((Call::Put { key, value }, Reply::New))
        }
        (None, Some(value)) => Ok((Call::Get { key }, Reply::Is(Value::from_bytes(value)?))),
        (None, None) => Ok((Call::Get { key }, Reply::None)),
    }
}

fn journal_of(alloc: Global, rows: &[Row]) -> Result<Journal, Fail> {
    let mut journal = Journal::new(alloc);
    for (client, line) in rows {
        let (call, reply) = call_and_reply(*line)?;
        journal.reserve()?;
        journal.push_reserved(*client, &call, &reply);
    }
    Ok(journal)
}

fn diary_of(alloc: Global, client: u32, lines: &[Line]) -> Result<Diary, Fail> {
    let mut diary = Diary::new(alloc, client.max(1).min(CALLER_LIMIT));
    for line in lines {
        let (call, reply) = call_and_reply(*line)?;
        diary.reserve()?;
        diary.push_reserved(&call, &reply);
    }
    Ok(diary)
}

// What the case's diaries and journals settle to, with no answer where they don't.
fn settled(alloc: Global, case: &Case) -> Result<Option<u128>, Fail> {
    let mut journals = Vec::new(alloc);
    for rows in case.0 {
        journals.push(journal_of(alloc, rows)?)?;
    }
    let mut diaries = Vec::new(alloc);
    for (client, lines) in case.1 {
        diaries.push(diary_of(alloc, *client, lines)?)?;
    }
    let file = FileJournals {
        ward_bits: 1,
        keyer: PlainKeyer,
        journals: &journals,
    };
    Ok(settle(&file, &diaries).ok().map(|settled| settled.answers))
}

#[test]
fn settles(rt: HostRuntime) -> Result<(), Fail> {
    for (at, case) in CASES.iter().enumerate() {
        assert!(rt; settled(rt.alloc(), case)? == case.2, "{at}");
    }
    Ok(())
}

// A diary of this many entries, a put and then gets.
fn long_diary(alloc: Global, entries: usize) -> Result<Diary, Fail> {
    let mut diary = diary_of(alloc, 1, &[PUT_40])?;
    let (call, reply) = call_and_reply(GET_40)?;
    for _ in 1..entries {
        diary.reserve()?;
        diary.push_reserved(&call, &reply);
    }
    Ok(diary)
}

// The number of a diary's entries has more than 16 bits, and its last entry is found.
#[test]
fn has_many_entries(rt: HostRuntime) -> Result<(), Fail> {
    let diary = long_diary(rt.alloc(), 70_000)?;
    let (call, reply) = call_and_reply(GET_40)?;
    assert!(rt; diary.len() == 70_000);
    for at in [1, 32_768, 65_535, 65_536, 69_999] {
        let entry = diary.get(at);
        assert!(rt;
            entry.map(|entry| entry.call == call && entry.reply == reply) == Some(true),
            "{at}"
        );
    }
    assert!(rt; diary.get(70_000).is_none());
    assert!(rt; diary.iter().count() == 70_000);
    Ok(())
}
