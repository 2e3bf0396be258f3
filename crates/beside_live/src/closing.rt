//! Closing with a seat missing and with all, wards with the diaries of another file, and all seats of one.
ghost use Rattle.std.specs.Prelude.{◌≡◌};
ghost use Rattle.exh_keyer.specs.Pseudokey.{plain_pseudokey};
ghost use Rattle.exh_live.specs.declared.ledgers.TheConstants.{ANSWER_PARTS, ENTRY_PARTS};

use exh_copy::Start;
use exh_fakes::{CAP, PlainFile, Reader, close, is_told, new_file, settled, two_callers};
use exh_fixtures::{Asked, Difference, Part, Run, same};
use exh_frames::PlainPages;
use exh_keyer::PlainKeyer;
use exh_live::{ANSWER_PARTS, Closed, ENTRY_PARTS, Identity, NotClosed, OpenGate, Seat};
use exh_ward::Reply;
use std::alloc::{AllocError, Global};
use std::marker::Brand;
use std::sync::Wait;
use std::sync::ledger::Blank;

type PlainClosed = Closed<PlainPages, PlainKeyer>;

// How many seats a file gives.
const SEATS: u32 = 65_535;

/// Runs it: seat 1 of a file puts a key, and seat 1 of another one gets it; a third file gives seats until
/// it gives no more.
pub(crate) fn run<R: Wait, S: Start>(
    rt: &R,
    run: &mut Run,
    copies: &mut Vec<Reader<S>>,
) -> Result<(), Difference> {
    let alloc = run.alloc;
    let put = answered(rt, alloc, copies, Asked::Put(b"k", b"a"), Reply::New)?;
    let got = answered(rt, alloc, copies, Asked::Get(b"k"), Reply::None)?;
    let has_all = gives_all_seats(alloc)?;
    let own = if run.lie.is_due() { 2 } else { 1 };
    run.tally.step(settles(&put, &put, Ok(own)));
    run.tally.step(settles(&got, &got, Ok(1)));
    run.tally.step(settles(&put, &got, Err(51)));
    run.tally.step(settles(&got, &put, Err(51)));
    run.tally.step(same(has_all, Part::Outcome));
    Ok(())
}

// Whether a file gives so many seats, and no more.
fn gives_all_seats(alloc: Global) -> Result<bool, AllocError> {
    let answers = Blank::new(ANSWER_PARTS);
    let entries = Blank::new(ENTRY_PARTS);
    gives_all_seats_of::<Brand>(alloc, answers, entries)
}

fn gives_all_seats_of<F: Identity>(
    alloc: Global,
    answers: Blank,
    entries: Blank,
) -> Result<bool, AllocError>
    requires answers { (answers.name ≡ F.answers) × (answers.parts ≡ ANSWER_PARTS) }
    requires entries { (entries.name ≡ F.entries) × (entries.parts ≡ ENTRY_PARTS) }
    requires hashed { F.hashing ≡ plain_pseudokey }
{
    let mut file = new_file::<F>(alloc, CAP, 0, answers, entries)?;
    for _ in 0..SEATS {
        if file.seat().is_err() {
            return Ok(false);
        }
    }
    Ok(file.seat().is_err() && file.seats() == SEATS)
}

// Whether the wards of a file come to so many answers with the diaries of another, or are refused so.
fn settles(
    wards: &PlainClosed,
    diaries: &PlainClosed,
    want: Result<u128, u8>,
) -> Result<(), Difference> {
    let count = settled(0, wards.wards.as_slice(), diaries.diaries.as_slice());
    same(count == want, Part::Journal)
}

// What a file leaves of whose two seats the first was answered one call.
fn answered<R: Wait, S: Start>(
    rt: &R,
    alloc: Global,
    copies: &mut Vec<Reader<S>>,
    asked: Asked<'_>,
    reply: Reply,
) -> Result<PlainClosed, Difference> {
    let answers = Blank::new(ANSWER_PARTS);
    let entries = Blank::new(ENTRY_PARTS);
    answered_by::<R, Brand, S>(rt, alloc, copies, asked, reply, answers, entries)
}

fn answered_by<R: Wait, F: Identity, S: Start>(
    rt: &R,
    alloc: Global,
    copies: &mut Vec<Reader<S>>,
    asked: Asked<'_>,
    reply: Reply,
    answers: Blank,
    entries: Blank,
) -> Result<PlainClosed, Difference>
    requires answers { (answers.name ≡ F.answers) × (answers.parts ≡ ANSWER_PARTS) }
    requires entries { (entries.name ≡ F.entries) × (entries.parts ≡ ENTRY_PARTS) }
    requires hashed { F.hashing ≡ plain_pseudokey }
{
    let mut file = new_file::<F>(alloc, CAP, 0, answers, entries)?;
    match two_callers(&mut file, copies) {
        Ok((mut first, second)) => {
            let told = is_told(rt, &file, &mut first, asked, &OpenGate, reply);
            close_told(alloc, file, told, second.seat, first.seat)
        }
        Err(difference) => Err(difference),
    }
}

// Closes a file of two seats, of whose calls this came. Who owns a file has few exits, for the prover's sake: each drops it.
fn close_told<F: Identity>(
    alloc: Global,
    file: PlainFile<F>,
    told: Result<(), Difference>,
    seat: Seat<F>,
    last: Seat<F>,
) -> Result<PlainClosed, Difference> {
    told?;
    let mut seats = Vec::new(alloc);
    seats.push(seat)?;
    close_twice(file, seats, last)
}

// Closes a file of two seats without the last one, which is refused, and then with it.
fn close_twice<F: Identity>(
    file: PlainFile<F>,
    seats: Vec<Seat<F>>,
    last: Seat<F>,
) -> Result<PlainClosed, Difference> {
    match file.close(seats) {
        Ok(_) => Err(Difference::Apart(Part::Outcome)),
        Err(back) => close_whole(back, last),
    }
}

fn close_whole<F: Identity>(
    back: NotClosed<PlainPages, PlainKeyer, F>,
    last: Seat<F>,
) -> Result<PlainClosed, Difference> {
    let is_whole = back.seats.len() == 1 && back.file.seats() == 2;
    same(is_whole && back.fault.number() == 52, Part::Outcome)?;
    let mut seats = back.seats;
    seats.push(last)?;
    close(back.file, seats).map_err(Difference::Refused)
}
