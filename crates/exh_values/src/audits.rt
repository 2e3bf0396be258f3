//! Journals whose replies were worked out by hand, and those of wards that a load answered.

use exh_calls::{Base, Journal, PackedPairs, Reply};
use exh_fixtures::{Difference, Said, key, value};
use exh_frames::FileStore;
use exh_keyer::PlainKeyer;
use exh_report::audit;
use exh_script::{Opened, load};
use std::alloc::{AllocError, Global};
use std::test::Fail;

// A history of a file of cap 2 and keyer plain, in which the key `z` has the value `z` before. The keys of zeros have one
// pseudokey.
const LINES: [Said<'static>; 12] = [
    Said::Is(b"z", b"z"),
    Said::New(b"\0", b"a"),
    Said::New(b"\0\0", b"a"),
    Said::Full(b"\0\0\0", b"a"),
    Said::Changed(b"\0", b"b", b"a"),
    Said::Is(b"\0", b"b"),
    Said::Was(b"\0\0", b"a"),
    Said::Gone(b"\0\0"),
    Said::Absent(b"\0\0"),
    Said::Swapped(b"\0", b"b", b"c"),
    Said::Differs(b"\0", b"b", b"d", b"c"),
    Said::Unswapped(b"\0\0", b"a", b"b"),
];

// The pairs before: of two of one key the first counts.
fn base(alloc: Global) -> Result<Base, Difference> {
    let mut pairs = PackedPairs::new(alloc);
    pairs.push(&key(b"z")?, &value(b"z")?)?;
    pairs.push(&key(b"z")?, &value(b"y")?)?;
    Ok(Base::from_pairs(pairs))
}

// Adds an entry of a call with a reply, which may be another than its own.
fn add(journal: &mut Journal, said: &Said<'_>, reply: Reply) -> Result<(), Difference> {
    let call = said.asked().call()?;
    journal.reserve()?;
    journal.push_reserved(1, &call, &reply);
    Ok(())
}

// The audit of a journal of these lines and a last one with this reply, in a file of this cap.
fn audited(
    alloc: Global,
    cap: usize,
    front: &[Said<'_>],
    last: &Said<'_>,
    reply: Reply,
) -> Result<bool, Difference> {
    let mut journal = Journal::new(alloc);
    for said in front {
        add(&mut journal, said, said.reply()?)?;
    }
    add(&mut journal, last, reply)?;
    Ok(audit(alloc, cap, &PlainKeyer, &base(alloc)?, &journal)?)
}

// Whether each beginning is a history, and none with another last reply, nor the whole in a file of another cap.
fn are_told_apart(alloc: Global) -> Result<bool, Difference> {
    let lines: &[Said<'_>] = &LINES;
    for at in 0..lines.len() {
        let (front, said) = (&lines[..at], &lines[at]);
        let is_history = audited(alloc, 2, front, said, said.reply()?)?;
        let is_another = audited(alloc, 2, front, said, Reply::Is(value(b"a")?))?;
        if !is_history || is_another {
            return Ok(false);
        }
    }
    match lines {
        [front @ .., last] => Ok(!audited(alloc, 3, front, last, last.reply()?)?),
        [] => Ok(false),
    }
}

#[test]
fn histories_and_others(rt: HostRuntime) {
    assert!(rt; matches!(are_told_apart(rt.alloc()), Ok(true)));
}

// 800 pairs of different keys, which the hash spreads over two wards.
fn many_pairs(alloc: Global) -> Result<Vec<u8>, AllocError> {
    let mut text = Vec::new(alloc);
    text.extend_from_slice(b"file cap=16 wards=1 copies=1 keyer=sha\n")?;
    for number in 1_000..1_800_u32 {
        let line = format!(in alloc; "k{number} v{number}\n")?;
        text.extend_from_slice(line.as_bytes())?;
    }
    Ok(text)
}

// How many pairs the bases of both wards have, and how many entries their journals; `None` where a journal is no history.
fn audited_wards(
    alloc: Global,
    file: &Opened<FileStore>,
) -> Result<Option<(usize, usize)>, AllocError> {
    let keyer = file.settings().keyer;
    let (mut pairs, mut entries) = (0usize, 0usize);
    for ward in file.wards() {
        if !audit(alloc, file.cap(), &keyer, ward.base(), ward.journal())? {
            return Ok(None);
        }
        pairs = pairs.saturating_add(ward.base().pairs().len());
        entries = entries.saturating_add(ward.journal().len());
    }
    Ok(Some((pairs, entries)))
}

// The history of each ward begins anew before its 257th pair, and not again.
#[test]
fn loaded_wards(rt: HostRuntime) -> Result<(), Fail> {
    let text = many_pairs(rt.alloc())?;
    let file = load(rt.alloc(), &mut text.as_slice(), &mut Vec::new(rt.alloc()))?;
    assert!(rt; matches!(file, Some(_)));
    if let Some(file) = file {
        assert!(rt; audited_wards(rt.alloc(), &file)? == Some((512, 288)));
    }
    Ok(())
}
