//! The held look: a caller has looked and is held by its gate, while another one on a thread of its own
//! splits the page that it has looked up.
ghost use Rattle.std.specs.Prelude.{◌≡◌};
ghost use Rattle.exh_keyer.specs.Pseudokey.{plain_pseudokey};
ghost use Rattle.exh_live.specs.declared.ledgers.TheConstants.{ANSWER_PARTS, ENTRY_PARTS};

use crate::ask::ask_all;
use exh_fakes::{
    CAP, Caller, Conductor, Count, PlainFile, Reader, Rule, Then, Who, close_settled, is_told,
    new_file, two_callers, two_seats,
};
use exh_fixtures::{Asked, Difference, Part, Run, Said, same, value};
use exh_frames::PlainPages;
use exh_keyer::PlainKeyer;
use exh_live::{ANSWER_PARTS, ENTRY_PARTS, Identity, OpenGate, Seat};
use exh_ward::{JournalEntry, Reply, Ward};
use std::alloc::AllocError;
use std::sync::Wait;
use std::sync::ledger::Blank;
use std::thread::{Threads, join};
use std::time::Clock;

const HAS_LOOKED: Count = Count::First;

const MAY_GO: Count = Count::Second;

const TURNS: Count = Count::Third;

// The turns are counted. At turn 1 a sign is given, and another one waited for.
const RULES: [Rule; 3] = [
    Rule(Who::Anybody, None, Then::Raise(TURNS)),
    Rule(Who::Anybody, Some(1), Then::Raise(HAS_LOOKED)),
    Rule(Who::Anybody, Some(1), Then::Wait(MAY_GO, 1)),
];

// The page that is looked up has two records.
const BEFORE: [Said<'static>; 2] = [Said::New(b"\0", b"a"), Said::New(b"\x80", b"b")];

// What the one ward answers, in this order, each call with its caller.
const JOURNAL: [(u32, Said<'static>); 5] = [
    (2, Said::New(b"\0", b"a")),
    (2, Said::New(b"\x80", b"b")),
    (2, Said::New(b"\x40", b"x")),
    (2, Said::Is(b"\x40", b"x")),
    (1, Said::Is(b"\x80", b"b")),
];

/// Runs it, over a copy that is told of nothing.
pub(crate) fn run<R: Threads + Wait + Clock + Sync, F: Identity + Sync + Send>(
    rt: &R,
    run: &mut Run,
    copies: &mut Vec<Reader>,
    answers: Blank,
    entries: Blank,
) -> Result<(), Difference>
    requires answers { (answers.name ≡ F.answers) × (answers.parts ≡ ANSWER_PARTS) }
    requires entries { (entries.name ≡ F.entries) × (entries.parts ≡ ENTRY_PARTS) }
    requires hashed { F.hashing ≡ plain_pseudokey }
{
    let mut file = new_file::<F>(run.alloc, CAP, 0, answers, entries)?;
    match two_callers(&mut file, copies) {
        Ok((mut first, mut second)) => {
            take_steps(rt, run, &file, &mut first, &mut second);
            let seats = two_seats(run.alloc, first, second);
            settle(run, file, seats)
        }
        Err(difference) => Err(difference),
    }
}

// What the callers leave. Who owns a file has few exits, for the prover's sake: each drops it.
fn settle<F: Identity>(
    run: &mut Run,
    file: PlainFile<F>,
    seats: Result<Vec<Seat<F>>, AllocError>,
) -> Result<(), Difference> {
    let seats = seats?;
    let closed = close_settled(run, 0, file, seats, 5)?;
    run.tally.step(has_journal(closed.wards.as_slice()));
    Ok(())
}

// The one ward has these entries in its journal, and no others.
fn has_journal(wards: &[Ward<PlainPages, PlainKeyer>]) -> Result<(), Difference> {
    let [ward] = wards else {
        return same(false, Part::Journal);
    };
    same(ward.journal().len() == JOURNAL.len(), Part::Journal)?;
    for (entry, (caller, said)) in ward.journal().iter().zip(&JOURNAL) {
        let due = JournalEntry::new(*caller, &said.asked().call()?, &said.reply()?);
        same(entry == due, Part::Journal)?;
    }
    Ok(())
}

// The second caller's first two calls; then the first one's, on a thread, with the others beside it.
fn take_steps<R: Threads + Wait + Clock + Sync, F: Identity + Sync + Send>(
    rt: &R,
    run: &mut Run,
    file: &PlainFile<F>,
    first: &mut Caller<F>,
    second: &mut Caller<F>,
) {
    ask_all(rt, run, file, second, &BEFORE);
    let gate = Conductor::new(rt, &RULES);
    let (looked, held) = join(
        rt,
        || look(rt, file, first, &gate),
        || split_meanwhile(rt, file, second, &gate),
    );
    run.tally.step(held);
    run.tally.step(looked);
    // One move: the caller is answered at its second turn.
    run.tally.step(same(gate.count(TURNS) == 2, Part::Walk));
}

fn look<R: Wait + Clock, F: Identity>(
    rt: &R,
    file: &PlainFile<F>,
    first: &mut Caller<F>,
    gate: &Conductor<'_, R>,
) -> Result<(), Difference> {
    let b = Reply::Is(value(b"b")?);
    is_told(rt, file, first, Asked::Get(b"\x80"), gate, b)
}

// Lets the held caller go, whatever came of it.
fn split_meanwhile<R: Wait + Clock, F: Identity>(
    rt: &R,
    file: &PlainFile<F>,
    second: &mut Caller<F>,
    gate: &Conductor<'_, R>,
) -> Result<(), Difference> {
    let is_held = gate.wait_for(HAS_LOOKED, 1);
    let outcome = put_and_get(rt, file, second);
    gate.raise(MAY_GO, 1);
    same(is_held, Part::Walk)?;
    outcome
}

// A put that takes one split: the page that was looked up has two records.
fn put_and_get<R: Wait, F: Identity>(
    rt: &R,
    file: &PlainFile<F>,
    second: &mut Caller<F>,
) -> Result<(), Difference> {
    let (put, get) = (Asked::Put(b"\x40", b"x"), Asked::Get(b"\x40"));
    is_told(rt, file, second, put, &OpenGate, Reply::New)?;
    let x = Reply::Is(value(b"x")?);
    is_told(rt, file, second, get, &OpenGate, x)
}
