//! The counter: two callers count to 100, each by gets of a number and swaps of it for the next one.
ghost use Rattle.std.specs.Prelude.{◌≡◌};
ghost use Rattle.exh_keyer.specs.Pseudokey.{plain_pseudokey};
ghost use Rattle.exh_live.specs.declared.ledgers.TheConstants.{ANSWER_PARTS, ENTRY_PARTS};

use exh_fakes::{
    CAP, Caller, Conductor, Count, PlainFile, PlainWard, Reader, Rule, Then, Who, ask,
    close_settled, is_told, new_file, two_callers, two_seats,
};
use exh_fixtures::{Asked, Difference, Part, Run, again, same, told_reply, value};
use exh_keyer::PlainKeyer;
use exh_live::{ANSWER_PARTS, ENTRY_PARTS, Gate, Identity, OpenGate, Seat};
use exh_model::audit;
use exh_page::Value;
use exh_ward::{Call, Reply};
use itoa::Buffer;
use std::alloc::AllocError;
use std::sync::Wait;
use std::sync::ledger::Blank;
use std::thread::{Threads, join};
use std::time::Clock;

const KEY: &[u8] = b"n";

// How many swaps of each caller are answered `Swapped`.
const SWAPS: u64 = 50;

// The most swaps that a caller asks for.
const TURNS: u32 = 100_000;

// That the first caller has got the number, swaps of the second one that were answered `Swapped`, and
// the answers of both.
const HAS_GOT: Count = Count::First;

const SWAPPED: Count = Count::Second;

const ANSWERS: Count = Count::Third;

// Who asks under these rules waits until the second caller has swapped.
const RULES: [Rule; 1] = [Rule(Who::Anybody, None, Then::Wait(SWAPPED, 1))];

/// Runs it.
pub(crate) fn run<R: Threads + Wait + Clock + Sync, F: Identity + Sync + Send>(
    rt: &R,
    run: &mut Run,
    copies: &mut Vec<Reader>,
    answers: Blank,
    entries: Blank,
) -> Result<(), Difference>
    requires answers { (answers.name ≡ F.answers) × (answers.parts ≡ ANSWER_PARTS) }
    requires entries { (entries.name ≡ F.entries) × (entries.parts ≡ ENTRY_PARTS) }
    requires hashed { F.hashing ≡ plain_pseudokey }
{
    let mut file = new_file::<F>(run.alloc, CAP, 0, answers, entries)?;
    match two_callers(&mut file, copies) {
        Ok((mut first, mut second)) => {
            let answered = count_both(rt, run, &file, &mut first, &mut second);
            let seats = two_seats(run.alloc, first, second);
            settle(run, file, seats, answered)
        }
        Err(difference) => Err(difference),
    }
}

// What the callers leave. Who owns a file has few exits, for the prover's sake: each drops it.
fn settle<F: Identity>(
    run: &mut Run,
    file: PlainFile<F>,
    seats: Result<Vec<Seat<F>>, AllocError>,
    answered: u128,
) -> Result<(), Difference> {
    let seats = seats?;
    let closed = close_settled(run, 0, file, seats, answered)?;
    for ward in closed.wards.as_slice() {
        let told = is_history(run, ward);
        run.tally.step(told);
    }
    Ok(())
}

// Both callers count, each on a thread of its own, from 0 to 100. Answers how many answers there were.
fn count_both<R: Threads + Wait + Clock + Sync, F: Identity + Sync + Send>(
    rt: &R,
    run: &mut Run,
    file: &PlainFile<F>,
    first: &mut Caller<F>,
    second: &mut Caller<F>,
) -> u128 {
    let put = is_told(
        rt,
        file,
        first,
        Asked::Put(KEY, b"0"),
        &OpenGate,
        Reply::New,
    );
    run.tally.step(put);
    let gate = Conductor::new(rt, &RULES);
    let (one, other) = join(
        rt,
        || count_held(rt, file, first, &gate),
        || count_on(rt, file, second, &gate),
    );
    run.tally.step(one);
    run.tally.step(other);
    let end = ends_at(rt, run, file, first);
    run.tally.step(end);
    u128::from(gate.count(ANSWERS)) + 2
}

// The number is 100.
fn ends_at<R: Wait, F: Identity>(
    rt: &R,
    run: &mut Run,
    file: &PlainFile<F>,
    caller: &mut Caller<F>,
) -> Result<(), Difference> {
    let reply = told_reply(&mut run.lie, Reply::Is(value(b"100")?));
    is_told(rt, file, caller, Asked::Get(KEY), &OpenGate, reply)
}

// The first caller's first swap is held until the other caller has swapped, and so finds another number.
fn count_held<R: Wait + Clock, F: Identity>(
    rt: &R,
    file: &PlainFile<F>,
    caller: &mut Caller<F>,
    gate: &Conductor<'_, R>,
) -> Result<(), Difference> {
    let stands = number_there(rt, file, caller)?;
    gate.raise(HAS_GOT, 1);
    let is_swapped = swaps(rt, file, caller, gate, &stands)?;
    gate.raise(ANSWERS, 2);
    same(!is_swapped, Part::Reply)?;
    count_fifty(rt, file, caller, gate, 0)
}

// The second caller begins when the first one has got the number.
fn count_on<R: Wait + Clock, F: Identity>(
    rt: &R,
    file: &PlainFile<F>,
    caller: &mut Caller<F>,
    counts: &Conductor<'_, R>,
) -> Result<(), Difference> {
    same(counts.wait_for(HAS_GOT, 1), Part::Walk)?;
    count_fifty(rt, file, caller, counts, 1)
}

// Gets and swaps until so many swaps were answered `Swapped`; each of them raises a count by so much.
fn count_fifty<R: Wait + Clock, F: Identity>(
    rt: &R,
    file: &PlainFile<F>,
    caller: &mut Caller<F>,
    counts: &Conductor<'_, R>,
    raised: u64,
) -> Result<(), Difference> {
    let mut swapped: u64 = 0;
    for _ in 0..TURNS {
        if swapped == SWAPS {
            return Ok(());
        }
        let stands = number_there(rt, file, caller)?;
        let is_swapped = swaps(rt, file, caller, &OpenGate, &stands)?;
        counts.raise(ANSWERS, 2);
        if is_swapped {
            counts.raise(SWAPPED, raised);
            swapped = swapped.saturating_add(1);
        }
    }
    Err(Difference::Apart(Part::Run))
}

// The number that stands.
fn number_there<R: Wait, F: Identity>(
    rt: &R,
    file: &PlainFile<F>,
    caller: &mut Caller<F>,
) -> Result<Value, Difference> {
    match answered(rt, file, caller, &Asked::Get(KEY).call()?, &OpenGate)? {
        Reply::Is(stands) => Ok(stands),
        _ => Err(Difference::Apart(Part::Reply)),
    }
}

// Whether a swap of the number that stood for the next one was answered `Swapped`, and not `Differs`.
fn swaps<R: Wait, F: Identity, G: Gate>(
    rt: &R,
    file: &PlainFile<F>,
    caller: &mut Caller<F>,
    gate: &G,
    old: &Value,
) -> Result<bool, Difference> {
    let new = next(old)?;
    let call = Asked::Swap(KEY, old.as_bytes(), new.as_bytes()).call()?;
    match answered(rt, file, caller, &call, gate)? {
        Reply::Swapped => Ok(true),
        Reply::Differs(stands) => {
            same(stands != *old, Part::Reply)?;
            Ok(false)
        }
        _ => Err(Difference::Apart(Part::Reply)),
    }
}

fn answered<R: Wait, F: Identity, G: Gate>(
    rt: &R,
    file: &PlainFile<F>,
    caller: &mut Caller<F>,
    call: &Call,
    gate: &G,
) -> Result<Reply, Difference> {
    match ask(rt, file, caller, call, gate) {
        Ok(reply) => Ok(reply),
        Err(fault) => Err(Difference::Refused(fault.number())),
    }
}

// The decimal text of the number that follows.
fn next(number: &Value) -> Result<Value, Difference> {
    let number = number.as_bytes().iter().fold(0_u32, |so_far, digit| {
        so_far
            .wrapping_mul(10)
            .wrapping_add(u32::from(digit.wrapping_sub(b'0')))
    });
    let mut buffer = Buffer::new();
    value(buffer.format(number.wrapping_add(1)).as_bytes())
}

// Whether a ward's journal is a history, by the audit.
fn is_history(run: &Run, ward: &PlainWard) -> Result<(), Difference> {
    let (base, journal) = (ward.base(), ward.journal());
    let is_true = again!(Err(AllocError) => audit(run.alloc, CAP, &PlainKeyer, base, journal))?;
    same(is_true, Part::Journal)
}
