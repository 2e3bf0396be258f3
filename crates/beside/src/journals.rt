//! Journals of wards, the pseudokeys that wards cover, and strays, beside what was worked out by hand:
//! what no script can say.

ghost use Rattle.std.specs.Prelude.{◌<◌, ◌≤◌, ◌^◌};
ghost use Rattle.exh_prefix.specs.declared.prefix.TheConstants.{WARD_BITS_LIMIT};

use crate::plain_ward::{PlainWard, plain_ward};
use exh_calls::{Base, Call, Journal, JournalEntry, Reply};
use exh_fixtures::{
    Asked, Difference, Part, Run, Said, again, first_store, hop_of, key, refused, same, split_page,
    value,
};
use exh_keyer::PlainKeyer;
use exh_prefix::{LIMIT, PageNo};
use exh_ward::{Hop, Ward, WardFault};
use std::alloc::{AllocError, Global};

// A call at page 0 of a client, and its reply.
type Line = (u32, Said<'static>);

// A call of each kind with each of its replies but `Full`: the longest key, the longest and the empty value, the least
// and the greatest client.
const LINES: [Line; 13] = [
    (0, Said::Absent(b"a")),
    (1, Said::New(&[5; 64], &[6; 128])),
    (1, Said::Changed(&[5; 64], &[7; 128], &[6; 128])),
    (u32::MAX, Said::New(b"\0", b"")),
    (2, Said::Is(b"\0", b"")),
    (3, Said::Is(&[5; 64], &[7; 128])),
    (3, Said::Changed(b"\0", b"value", b"")),
    (3, Said::Was(&[5; 64], &[7; 128])),
    (4, Said::Gone(&[255; 64])),
    (4, Said::Absent(&[5; 64])),
    (5, Said::Swapped(b"\0", b"value", &[8; 128])),
    (5, Said::Differs(b"\0", &[9; 128], b"", &[8; 128])),
    (6, Said::Unswapped(&[5; 64], &[6; 128], &[7; 128])),
];

/// Takes the calls and the steps.
pub(crate) fn run(run: &mut Run) -> Result<(), Difference> {
    run_journal(run)?;
    take_many(run)?;
    run_strays(run)?;
    run_cover(run, 4, 15, &LAST_OF_16)?;
    run_cover(run, 2, 1, &SECOND_OF_4)?;
    take_refusals(run);
    Ok(())
}

// Who owns a ward has few exits, for the prover's sake: each drops it.
fn run_journal(run: &mut Run) -> Result<(), Difference> {
    let mut ward = plain_ward(run.alloc)?;
    run.tally.check(has_entries(&ward, &[]));
    for (at, (client, said)) in LINES.iter().enumerate() {
        let outcome = take_call(&mut ward, *client, said, run.lie.is_due());
        run.tally.step(outcome);
        run.tally.check(has_entries(&ward, &LINES[..=at]));
    }
    run.tally.check(has_full_entry(&mut ward));
    run.tally.check(has_begun(&mut ward));
    Ok(())
}

// A call at page 0 has this reply, or another.
fn take_call(
    ward: &mut PlainWard,
    client: u32,
    said: &Said<'_>,
    lies: bool,
) -> Result<(), Difference> {
    let hop = hop_of(ward, 0, client, &said.asked().call()?).map_err(refused)?;
    same((hop == Hop::Done(said.reply()?)) != lies, Part::Reply)
}

// The journal has these entries and no others, and begins with no key.
fn has_entries(ward: &PlainWard, lines: &[Line]) -> Result<(), Difference> {
    has_just(ward.journal(), lines)?;
    has_pairs(ward.base(), &[])
}

// The base has these pairs and no others, in order.
fn has_pairs(base: &Base, wanted: &[(&[u8], &[u8])]) -> Result<(), Difference> {
    let mut pairs = base.pairs();
    same(pairs.len() == wanted.len(), Part::Journal)?;
    for (own_key, own_value) in wanted {
        let pair = Some((key(own_key)?, value(own_value)?));
        same(pairs.next() == pair, Part::Journal)?;
    }
    Ok(())
}

// The pairs of the pages when the history begins anew.
const LEFT: [(&[u8], &[u8]); 2] = [(b"\0", &[8; 128]), (b"\0\0", b"b")];

// A history that begins anew has no entry, and the pairs of the pages as its base, and goes on with the call that comes
// next.
fn has_begun(ward: &mut PlainWard) -> Result<(), Difference> {
    again!(Err(WardFault::Memory) => ward.begin_history()).map_err(refused)?;
    has_just(ward.journal(), &[])?;
    has_pairs(ward.base(), &LEFT)?;
    let asked = (7, Said::Is(b"\0", &[8; 128]));
    take_call(ward, asked.0, &asked.1, false)?;
    has_just(ward.journal(), &[asked])?;
    has_pairs(ward.base(), &LEFT)
}

// The journal has these entries and no others.
fn has_just(journal: &Journal, lines: &[Line]) -> Result<(), Difference> {
    for (at, (client, said)) in lines.iter().enumerate() {
        let entry = JournalEntry::new(*client, &said.asked().call()?, &said.reply()?);
        same(journal.get(at) == Some(entry), Part::Journal)?;
    }
    let is_end = journal.get(lines.len()).is_none() && journal.get(usize::MAX).is_none();
    let is_all = journal.len() == lines.len() && journal.iter().count() == lines.len();
    same(
        is_end && is_all && journal.is_empty() == lines.is_empty(),
        Part::Journal,
    )
}

// More calls than 16 bits count, each of a client of its own.
const MANY: u32 = 65_538;

fn take_many(run: &mut Run) -> Result<(), Difference> {
    let get = Asked::Get(b"a").call()?;
    run_many(run, &get)
}

fn run_many(run: &mut Run, get: &Call) -> Result<(), Difference> {
    let mut ward = plain_ward(run.alloc)?;
    run.tally.step(ask_many(&mut ward, get));
    Ok(())
}

// The journal has an entry of each call, in order.
fn ask_many(ward: &mut PlainWard, get: &Call) -> Result<(), Difference> {
    for client in 0..MANY {
        let hop = hop_of(ward, 0, client, get).map_err(refused)?;
        same(hop == Hop::Done(Reply::None), Part::Reply)?;
    }
    let journal = ward.journal();
    let entries = (0..MANY).map(|client| JournalEntry::new(client, get, &Reply::None));
    same(journal.iter().eq(entries), Part::Journal)?;
    let past = JournalEntry::new(65_536, get, &Reply::None);
    same(journal.get(65_536) == Some(past), Part::Journal)
}

// A key is turned away where two have its `LIMIT` leading bits, and the journal says so.
fn has_full_entry(ward: &mut PlainWard) -> Result<(), Difference> {
    let second = Asked::Put(b"\0\0", b"b");
    let third = Asked::Put(b"\0\0\0", b"c");
    let new = hop_at(ward, 0, second)?;
    same(new == Hop::Done(Reply::New), Part::Reply)?;
    for _ in 0..LIMIT {
        split_page(ward, 0).map_err(refused)?;
    }
    let full = hop_at(ward, 0, third)?;
    same(full == Hop::Done(Reply::Full), Part::Reply)?;
    let entry = JournalEntry::new(1, &third.call()?, &Reply::Full);
    same(ward.journal().iter().last() == Some(entry), Part::Journal)
}

// A hop of client 1.
fn hop_at(ward: &mut PlainWard, at: PageNo, asked: Asked<'_>) -> Result<Hop, Difference> {
    let call = asked.call()?;
    let hop = hop_of(ward, at, 1, &call).map_err(refused)?;
    Ok(hop)
}

// The three keys, and gets that go astray: at a page for greater pseudokeys, and at one that isn't there. The right page
// answers.
fn take_strays(ward: &mut PlainWard) -> Result<(), Difference> {
    let new = Hop::Done(Reply::New);
    let b = Hop::Done(Reply::Is(value(b"b")?));
    let (first, right) = (Asked::Get(b"\0"), Asked::Get(b"\x80"));
    let is_first = hop_at(ward, 0, Asked::Put(b"\0", b"a"))? == new;
    let is_second = hop_at(ward, 0, Asked::Put(b"\x80", b"b"))? == new;
    let is_full = hop_at(ward, 0, Asked::Put(b"\x40", b"x"))? == Hop::MustSplit;
    same(is_first && is_second && is_full, Part::Hop)?;
    split_page(ward, 0).map_err(refused)?;
    let is_stray = hop_at(ward, 1, first)? == Hop::Stray && hop_at(ward, 2, first)? == Hop::Stray;
    let is_right = hop_at(ward, 0, right)? == Hop::Moved(1) && hop_at(ward, 1, right)? == b;
    same(is_stray && is_right, Part::Hop)
}

fn run_strays(run: &mut Run) -> Result<(), Difference> {
    let mut ward = plain_ward(run.alloc)?;
    run.tally.step(take_strays(&mut ward));
    Ok(())
}

// Pseudokeys, and whether the last of sixteen wards covers them, or the second of four.
const LAST_OF_16: [(u64, bool); 3] = [
    (0xf000_0000_0000_0000, true),
    (u64::MAX, true),
    (0xefff_ffff_ffff_ffff, false),
];

const SECOND_OF_4: [(u64, bool); 4] = [
    (0x3fff_ffff_ffff_ffff, false),
    (0x4000_0000_0000_0000, true),
    (0x7fff_ffff_ffff_ffff, true),
    (0x8000_0000_0000_0000, false),
];

fn run_cover(
    run: &mut Run,
    ward_bits: u8,
    number: u8,
    pseudokeys: &[(u64, bool)],
) -> Result<(), Difference>
    requires bits { ward_bits ≤ WARD_BITS_LIMIT }
    requires number { number < 2 ^ ward_bits }
{
    let store = first_store(run.alloc, ward_bits, number)?;
    let ward = Ward::new(run.alloc, store, 2, ward_bits, number, PlainKeyer);
    take_covers(run, &ward, pseudokeys);
    Ok(())
}

fn take_covers(run: &mut Run, ward: &PlainWard, pseudokeys: &[(u64, bool)]) {
    for (pseudokey, want) in pseudokeys {
        let is_covered = ward.covers(*pseudokey);
        run.tally.step(same(is_covered == *want, Part::Covered));
    }
}

// The refusals of a ward, with their numbers and texts.
const REFUSALS: [(WardFault, u8, &str); 10] = [
    (WardFault::NoPage, 1, "no such page"),
    (WardFault::NotLive, 3, "the page isn't live"),
    (WardFault::NotFull, 4, "the page isn't full"),
    (
        WardFault::AtLimit,
        5,
        "the page's prefix has the greatest length",
    ),
    (WardFault::NoBuddy, 6, "the page is no left half"),
    (WardFault::BuddySplit, 7, "the page's right buddy was split"),
    (
        WardFault::TooMany(17),
        8,
        "both pages have 17 records together",
    ),
    (
        WardFault::Worn,
        9,
        "the number at the parent is the greatest",
    ),
    (WardFault::Memory, 10, "out of memory"),
    (WardFault::Page, 11, "a page is out of reach"),
];

fn take_refusals(run: &mut Run) {
    for (fault, number, text) in &REFUSALS {
        let outcome = has_text(run.alloc, *fault, *number, text);
        run.tally.step(outcome);
    }
}

fn has_text(alloc: Global, fault: WardFault, number: u8, text: &str) -> Result<(), Difference> {
    let shown = again!(Err(AllocError) => fault.to_string(alloc))?;
    same(
        fault.number() == number && shown.as_str() == text,
        Part::Text,
    )
}
