//! Many callers on threads of their own, over four wards: diaries and journals are settled, no entry is
//! lost, and each reply is the map machine's, told the calls in the journals' order.
ghost use Rattle.std.specs.Prelude.{◌≡◌};
ghost use Rattle.exh_keyer.specs.Pseudokey.{plain_pseudokey};
ghost use Rattle.exh_live.specs.declared.ledgers.TheConstants.{ANSWER_PARTS, ENTRY_PARTS};

use exh_copy::Start;
use exh_fakes::{
    CAP, Caller, PlainFile, PlainWard, Reader, ask, close_settled, new_file, next_caller,
};
use exh_fixtures::{Asked, Dice, Difference, Part, Run, again, same, told_reply};
use exh_keyer::PlainKeyer;
use exh_live::{ANSWER_PARTS, ENTRY_PARTS, Identity, OpenGate, Seat};
use exh_model::MapMachine;
use exh_ward::Call;
use std::alloc::AllocError;
use std::sync::Wait;
use std::sync::ledger::Blank;
use std::thread::{Threads, map_vec};

/// How many callers there are.
pub(crate) const CALLERS: u16 = 16;

// How many keys they call.
const KEYS: u8 = 64;

/// A caller with the dice that pick its calls, and what came of them.
#[derive(Drop)]
struct Job<F: Identity, S: Start> {
    caller: Caller<F, S>,
    dice: Dice,
    outcome: Result<(), Difference>,
}

/// Runs as many calls of each caller as the run has rounds, and then a get of each key.
pub(crate) fn run<R: Threads + Wait + Sync, F: Identity + Sync + Send, S: Start + Sync + Send>(
    rt: &R,
    run: &mut Run,
    copies: &mut Vec<Reader<S>>,
    answers: Blank,
    entries: Blank,
) -> Result<(), Difference>
    requires answers { (answers.name ≡ F.answers) × (answers.parts ≡ ANSWER_PARTS) }
    requires entries { (entries.name ≡ F.entries) × (entries.parts ≡ ENTRY_PARTS) }
    requires hashed { F.hashing ≡ plain_pseudokey }
{
    let mut file = new_file::<F>(run.alloc, CAP, 2, answers, entries)?;
    match call_all(rt, run, &mut file, copies) {
        Ok(seats) => settle(run, file, seats),
        Err(difference) => Err(difference),
    }
}

// Makes all calls. Who owns a file has few exits, for the prover's sake: each drops it.
fn call_all<R: Threads + Wait + Sync, F: Identity + Sync + Send, S: Start + Sync + Send>(
    rt: &R,
    run: &mut Run,
    file: &mut PlainFile<F>,
    copies: &mut Vec<Reader<S>>,
) -> Result<Vec<Seat<F>>, Difference> {
    let mut last = next_caller(file, copies)?;
    let jobs = new_jobs(run, file, copies)?;
    let calls = run.rounds;
    let served: &PlainFile<F> = file;
    let jobs = map_vec(rt, jobs, &|job| call_often(rt, served, job, calls))?;
    run.tally.check(get_all(rt, served, &mut last));
    let mut seats = Vec::new(run.alloc);
    seats.push(last.seat)?;
    stand_up(run, jobs, &mut seats)?;
    Ok(seats)
}

// What the callers leave.
fn settle<F: Identity>(
    run: &mut Run,
    file: PlainFile<F>,
    seats: Vec<Seat<F>>,
) -> Result<(), Difference> {
    let want = u128::from(run.rounds) * u128::from(CALLERS) + u128::from(KEYS);
    let closed = close_settled(run, 2, file, seats, want)?;
    replay(run, closed.wards.as_slice());
    Ok(())
}

fn new_jobs<F: Identity, S: Start>(
    run: &mut Run,
    file: &mut PlainFile<F>,
    copies: &mut Vec<Reader<S>>,
) -> Result<Vec<Job<F, S>>, Difference> {
    let mut jobs = Vec::new(run.alloc);
    for _ in 0..CALLERS {
        jobs.push(Job {
            caller: next_caller(file, copies)?,
            dice: Dice::new(run.dice.word()),
            outcome: Ok(()),
        })?;
    }
    Ok(jobs)
}

// Makes so many calls, until one is refused.
fn call_often<R: Wait, F: Identity, S: Start>(
    rt: &R,
    file: &PlainFile<F>,
    job: Job<F, S>,
    calls: u32,
) -> Job<F, S> {
    let mut job = job;
    for _ in 0..calls {
        if job.outcome.is_ok() {
            job.outcome = call_once(rt, file, &mut job.caller, &mut job.dice);
        }
    }
    job
}

// A call at one of the keys of all wards.
fn call_once<R: Wait, F: Identity, S: Start>(
    rt: &R,
    file: &PlainFile<F>,
    caller: &mut Caller<F, S>,
    dice: &mut Dice,
) -> Result<(), Difference> {
    let key = [dice.roll(64) as u8 * 4];
    let value = [dice.roll(256) as u8];
    let call = match dice.roll(4) {
        0 | 1 => Asked::Get(&key).call()?,
        2 => Asked::Put(&key, &value).call()?,
        _ => Asked::Del(&key).call()?,
    };
    is_answered(rt, file, caller, &call)
}

fn is_answered<R: Wait, F: Identity, S: Start>(
    rt: &R,
    file: &PlainFile<F>,
    caller: &mut Caller<F, S>,
    call: &Call,
) -> Result<(), Difference> {
    match ask(rt, file, caller, call, &OpenGate) {
        Ok(_) => Ok(()),
        Err(fault) => Err(Difference::Refused(fault.number())),
    }
}

// Gets each key, when all callers have made their calls.
fn get_all<R: Wait, F: Identity, S: Start>(
    rt: &R,
    file: &PlainFile<F>,
    caller: &mut Caller<F, S>,
) -> Result<(), Difference> {
    for key in 0..KEYS {
        is_answered(rt, file, caller, &Asked::Get(&[key * 4]).call()?)?;
    }
    Ok(())
}

// The seats of the callers; what came of their calls is counted.
fn stand_up<F: Identity, S: Start>(
    run: &mut Run,
    jobs: Vec<Job<F, S>>,
    seats: &mut Vec<Seat<F>>,
) -> Result<(), AllocError> {
    for job in jobs {
        let Job {
            caller,
            dice: _,
            outcome,
        } = job;
        run.tally.check(outcome);
        seats.push(caller.seat)?;
    }
    Ok(())
}

// Tells the map machine the calls of the journals, ward by ward: no two wards share a key.
fn replay(run: &mut Run, wards: &[PlainWard]) {
    let mut machine = MapMachine::new(run.alloc, 2, PlainKeyer);
    for ward in wards {
        replay_ward(run, &mut machine, ward);
    }
}

fn replay_ward(run: &mut Run, machine: &mut MapMachine<PlainKeyer>, ward: &PlainWard) {
    for entry in ward.journal().iter() {
        let want = again!(Err(AllocError) => machine.answer(&entry.call));
        let outcome = match want {
            Ok(reply) => same(told_reply(&mut run.lie, reply) == entry.reply, Part::Reply),
            Err(error) => Err(Difference::Memory(error)),
        };
        run.tally.step(outcome);
    }
}
