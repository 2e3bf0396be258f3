//! The refill: a keeper makes rounds over a ward, while a caller on another thread empties its pages and
//! fills them again.
ghost use Rattle.std.specs.Prelude.{◌≡◌};
ghost use Rattle.exh_keyer.specs.Pseudokey.{plain_pseudokey};
ghost use Rattle.exh_live.specs.declared.ledgers.TheConstants.{ANSWER_PARTS, ENTRY_PARTS};

use crate::ask::ask_all;
use exh_fakes::{
    Caller, Conductor, Count, HAS_MERGED, IS_OVER, Look, Reader, WatchedFile, WatchedMaker,
    WatchedPages, close_settled, is_kept, keep, next_caller, watched_file,
};
use exh_fixtures::{Difference, Part, Run, Said, merge, prefix, same, split};
use exh_frames::{PlainMaker, PlainPages};
use exh_keyer::PlainKeyer;
use exh_live::{ANSWER_PARTS, ENTRY_PARTS, Identity};
use exh_ward::Ward;
use std::sync::Wait;
use std::sync::ledger::Blank;
use std::thread::{Threads, join};
use std::time::Clock;

type PlainFile<'a, R, F> = WatchedFile<'a, PlainPages, R, F>;

type PlainWard<'a, R> = Ward<WatchedPages<'a, PlainPages, R>, PlainKeyer>;

const HAS_ENDED: Count = Count::Third;

const BEGIN: [Said<'static>; 1] = [Said::New(b"\0", b"a")];

// The last put takes a split where the pages are merged: the left page has `#00` and `#40` then, and the
// right one `#80`.
const FILL: [Said<'static>; 5] = [
    Said::New(b"\x80", b"b"),
    Said::Is(b"\x80", b"b"),
    Said::Changed(b"\0", b"a", b"a"),
    Said::New(b"\x40", b"x"),
    Said::Is(b"\x40", b"x"),
];

// One record is left.
const EMPTY: [Said<'static>; 2] = [Said::Was(b"\x40", b"x"), Said::Was(b"\x80", b"b")];

const END: [Said<'static>; 3] = [
    Said::Is(b"\0", b"a"),
    Said::Absent(b"\x40"),
    Said::Absent(b"\x80"),
];

/// Runs it, over a copy that is told of nothing.
pub(crate) fn run<R: Threads + Wait + Clock + Sync, F: Identity + Sync + Send>(
    rt: &R,
    run: &mut Run,
    copies: &mut Vec<Reader>,
    watch: &Conductor<'_, R>,
    answers: Blank,
    entries: Blank,
) -> Result<(), Difference>
    requires answers { (answers.name ≡ F.answers) × (answers.parts ≡ ANSWER_PARTS) }
    requires entries { (entries.name ≡ F.entries) × (entries.parts ≡ ENTRY_PARTS) }
    requires hashed { F.hashing ≡ plain_pseudokey }
{
    let mut seats = Vec::new(run.alloc);
    seats.reserve(1)?;
    let maker = WatchedMaker::new(&PlainMaker, Look::Rests, &*watch);
    let mut file = watched_file::<PlainPages, PlainMaker, R, F>(
        run.alloc, &maker, 0, answers, entries,
    )?;
    let mut caller = next_caller(&mut file, copies)?;
    let turns = run.rounds / 4 + 1;
    let merges = take_turns(rt, run, &file, &mut caller, watch, turns);
    run.tally
        .step(same(watch.count(IS_OVER) == 0, Part::Change));
    seats.push_reserved(caller.seat);
    // With the calls of each turn those before and after them.
    let answers = 7 * u128::from(turns) + 11;
    let closed = close_settled(run, 0, file, seats, answers)?;
    run.tally.step(are_told(closed.wards.as_slice(), merges));
    Ok(())
}

// The caller fills the pages. Beside a keeper it empties and fills them in so many turns, and by itself it
// empties them. How many merges the keeper made beside it.
fn take_turns<R: Threads + Wait + Clock + Sync, F: Identity + Sync + Send>(
    rt: &R,
    run: &mut Run,
    file: &PlainFile<'_, R, F>,
    caller: &mut Caller<F>,
    watch: &Conductor<'_, R>,
    turns: u32,
) -> Result<u32, Difference>
    requires { file.now.ward_bits ≡ 0 }
{
    ask_all(rt, run, file, caller, &BEGIN);
    ask_all(rt, run, file, caller, &FILL);
    let (merges, ()) = join(
        rt,
        || keep_beside(rt, file, watch),
        || {
            refill(rt, run, file, caller, watch, turns);
            watch.raise(HAS_ENDED, 1);
        },
    );
    run.tally.step(is_kept(rt, file, 0, 0));
    ask_all(rt, run, file, caller, &EMPTY);
    run.tally.step(is_kept(rt, file, 0, 1));
    run.tally.step(is_kept(rt, file, 0, 0));
    ask_all(rt, run, file, caller, &END);
    merges
}

// Makes rounds until the caller has ended.
fn keep_beside<R: Wait + Clock, F: Identity>(
    rt: &R,
    file: &PlainFile<'_, R, F>,
    watch: &Conductor<'_, R>,
) -> Result<u32, Difference>
    requires { file.now.ward_bits ≡ 0 }
{
    let mut merges = 0u32;
    for _ in rt.forever() {
        if watch.count(HAS_ENDED) > 0 {
            return Ok(merges);
        }
        merges = merges.saturating_add(keep(rt, file, 0)?);
    }
    unreachable!()
}

// In its first turn it waits for the keeper's first merge, and so it fills merged pages once at least.
fn refill<R: Wait + Clock, F: Identity>(
    rt: &R,
    run: &mut Run,
    file: &PlainFile<'_, R, F>,
    caller: &mut Caller<F>,
    watch: &Conductor<'_, R>,
    turns: u32,
) {
    for turn in 0..turns {
        ask_all(rt, run, file, caller, &EMPTY);
        if turn == 0 {
            let has_merged = watch.wait_for(HAS_MERGED, 1);
            run.tally.step(same(has_merged, Part::Change));
        }
        ask_all(rt, run, file, caller, &FILL);
    }
}

// Whether the one ward tells of as many merges as the keeper made beside the caller, one at least, and of
// the one after it. By turns it tells of a split of its first page, whose right half is page 1, and of a
// merge of both.
fn are_told<R: Clock>(
    wards: &[PlainWard<'_, R>],
    merges: Result<u32, Difference>,
) -> Result<(), Difference> {
    let merges = u64::from(merges?);
    let own = prefix("")?;
    let mut told = 0u32;
    for ward in wards {
        for notice in ward.notices_after(0) {
            told = told.saturating_add(1);
            let want = match told % 2 {
                0 => merge(u64::from(told), own, told),
                _ => split(u64::from(told), own, told, 1),
            };
            same(*notice == want, Part::Change)?;
        }
    }
    let is_told = u64::from(told) == 2 * (merges + 1);
    same(merges > 0 && is_told, Part::Change)
}
