//! Page faults in a live file: each access of a page that a list of steps makes is refused in turn, and the refused step
//! is made once more. Each step that reaches a page must have been refused, each comes to what it should, and what was
//! answered settles.
ghost use Rattle.std.specs.Prelude.{◌≡◌, ◌^◌, ℕ, length, IfOk};
ghost use Rattle.std.specs.FinMap as map;
ghost use Rattle.exh_keyer.specs.Pseudokey.{plain_pseudokey};
ghost use Rattle.exh_live.specs.LiveFile.{IsNewWardOf};
ghost use Rattle.exh_live.specs.declared.ledgers.TheConstants.{ANSWER_PARTS, ENTRY_PARTS};

use exh_copy::{NewCopyFault, Start, new_copy};
use exh_fakes::lists::{FAULT_COUNT, FAULTS};
use exh_fakes::{
    CAP, Caller, File, LiveStep, Reader, Writer, close, is_carried, is_told, keep, next_caller,
    one_ward_file, settled,
};
use exh_fixtures::{Difference, Part, Run, again, first_store, same};
use exh_frames::{FailingPages, PlainPages};
use exh_keyer::PlainKeyer;
use exh_live::{ANSWER_PARTS, Cursors, ENTRY_PARTS, Identity, OpenGate};
use exh_table::Table;
use exh_ward::Ward;
use std::alloc::{AllocError, Global};
use std::marker::Brand;
use std::sync::Wait;
use std::sync::ledger::Blank;

type FailingWard = Ward<FailingPages<PlainPages>, PlainKeyer>;

type FailingFile<F> = File<FailingPages<PlainPages>, F>;

// More accesses than the steps make.
const MOST: u64 = 1000;

// The refusal of a page that is out of reach.
const OUT_OF_REACH: u8 = 11;

// The calls of the list.
const ANSWERS: u128 = 11;

/// Whether a step was refused, and came to what it should each time.
#[derive(Clone, Copy)]
struct Note {
    is_refused: bool,
    is_right: bool,
}

/// Takes the steps, without a fault and then with a fault at each access.
pub(crate) fn run<R: Wait>(rt: &R, run: &mut Run) -> Result<(), Difference> {
    let mut notes = [Note {
        is_refused: false,
        is_right: true,
    }; FAULT_COUNT];
    take_each_access(rt, run.alloc, &mut notes)?;
    notes[0].is_right = !run.lie.is_due() && notes[0].is_right;
    for (step, note) in FAULTS.iter().zip(&notes) {
        let is_refused = note.is_refused == reaches_a_page(step);
        run.tally
            .step(same(is_refused && note.is_right, Part::Fault));
    }
    Ok(())
}

// A courier reaches none.
fn reaches_a_page(step: &LiveStep) -> bool {
    !matches!(step, LiveStep::Carried(_))
}

// Takes the steps of files whose first access is refused, the second, and so on, up to one that has no access of this
// number. Where memory is refused the file is made anew.
fn take_each_access<R: Wait>(rt: &R, alloc: Global, notes: &mut [Note]) -> Result<(), Difference> {
    for at in 0..MOST {
        let has_met = again!(Err(Difference::Memory(_)) => take_at(rt, alloc, at, notes))?;
        if at > 0 && !has_met {
            return Ok(());
        }
    }
    Err(Difference::Apart(Part::Healed))
}

// Takes the steps of a file whose access of this number is refused; 0 is no access's. Answers whether one was.
fn take_at<R: Wait>(
    rt: &R,
    alloc: Global,
    at: u64,
    notes: &mut [Note],
) -> Result<bool, Difference> {
    let answers = Blank::new(ANSWER_PARTS);
    let entries = Blank::new(ENTRY_PARTS);
    with_copy::<R, Brand, Brand>(rt, alloc, at, notes, answers, entries)
}

fn with_copy<R: Wait, F: Identity, S: Start>(
    rt: &R,
    alloc: Global,
    at: u64,
    notes: &mut [Note],
    answers: Blank,
    entries: Blank,
) -> Result<bool, Difference>
    requires copy { S.ward_bits ≡ 0 }
    requires table { S.table ≡ map.empty }
    requires answers { (answers.name ≡ F.answers) × (answers.parts ≡ ANSWER_PARTS) }
    requires entries { (entries.name ≡ F.entries) × (entries.parts ≡ ENTRY_PARTS) }
    requires hashed { F.hashing ≡ plain_pseudokey }
{
    match new_copy::<S>(alloc, 0, &Table::new(alloc), 1) {
        Ok((mut writer, mut readers)) => {
            let outcome = take_file::<R, F, S>(
                rt,
                alloc,
                at,
                notes,
                &mut writer,
                &mut readers,
                answers,
                entries,
            );
            drop(writer.close(rt));
            outcome
        }
        Err(NewCopyFault::Memory) => Err(Difference::Memory(AllocError)),
        Err(NewCopyFault::NoPlace(writer)) => {
            drop(writer.close(rt));
            Err(Difference::Apart(Part::Run))
        }
    }
}

// What the file's caller was answered settles with what its ward answered.
fn take_file<R: Wait, F: Identity, S: Start>(
    rt: &R,
    alloc: Global,
    at: u64,
    notes: &mut [Note],
    writer: &mut Writer<S>,
    copies: &mut Vec<Reader<S>>,
    answers: Blank,
    entries: Blank,
) -> Result<bool, Difference>
    requires answers { (answers.name ≡ F.answers) × (answers.parts ≡ ANSWER_PARTS) }
    requires entries { (entries.name ≡ F.entries) × (entries.parts ≡ ENTRY_PARTS) }
    requires hashed { F.hashing ≡ plain_pseudokey }
{
    let mut seats = Vec::new(alloc);
    seats.reserve(1)?;
    let mut file = failing_file::<F>(alloc, at, answers, entries)?;
    let mut caller = next_caller(&mut file, copies)?;
    let has_met = take_steps(rt, alloc, &file, &mut caller, writer, notes)?;
    seats.push_reserved(caller.seat);
    let closed = close(file, seats).map_err(Difference::Refused)?;
    let count = settled(0, closed.wards.as_slice(), closed.diaries.as_slice());
    same(count == Ok(ANSWERS), Part::Journal)?;
    Ok(has_met)
}

// Takes the steps, each once more where a page was out of reach. Answers whether one was.
fn take_steps<R: Wait, F: Identity, S: Start>(
    rt: &R,
    alloc: Global,
    file: &FailingFile<F>,
    caller: &mut Caller<F, S>,
    writer: &mut Writer<S>,
    notes: &mut [Note],
) -> Result<bool, Difference>
    requires { file.now.ward_bits ≡ 0 }
{
    let mut cursors = Cursors::new(alloc, 0, &Table::new(alloc))?;
    let mut has_met = false;
    'steps: for (step, note) in FAULTS.iter().zip(notes.iter_mut()) {
        let mut told = take(rt, file, caller, writer, &mut cursors, step, false);
        if let Err(Difference::Refused(OUT_OF_REACH)) = told {
            note.is_refused = true;
            has_met = true;
            told = take(rt, file, caller, writer, &mut cursors, step, true);
        }
        note.is_right &= told.is_ok();
    }
    Ok(has_met)
}

// A keeper's round that was refused may have made its merges.
fn take<R: Wait, F: Identity, S: Start>(
    rt: &R,
    file: &FailingFile<F>,
    caller: &mut Caller<F, S>,
    writer: &mut Writer<S>,
    cursors: &mut Cursors,
    step: &LiveStep,
    is_again: bool,
) -> Result<(), Difference>
    requires bits { file.now.ward_bits ≡ 0 }
    requires cursors { length cursors.old ≡ 1 }
    ensures { length cursors.new ≡ 1 }
{
    match step {
        LiveStep::Call(said) => {
            is_told(rt, file, caller, said.asked(), &OpenGate, said.reply()?)
        }
        LiveStep::Kept(merges) => {
            let made = keep(rt, file, 0)?;
            same(made == *merges || is_again && made < *merges, Part::Change)
        }
        LiveStep::Carried(notices) => is_carried(rt, file, writer, cursors, *notices),
        _ => Err(Difference::Apart(Part::Run)),
    }
}

// A new file of one ward, whose access of this number is refused.
fn failing_file<F: Identity>(
    alloc: Global,
    at: u64,
    answers: Blank,
    entries: Blank,
) -> Result<FailingFile<F>, AllocError>
    requires answers { (answers.name ≡ F.answers) × (answers.parts ≡ ANSWER_PARTS) }
    requires entries { (entries.name ≡ F.entries) × (entries.parts ≡ ENTRY_PARTS) }
    requires hashed { F.hashing ≡ plain_pseudokey }
    ensures { IfOk result (λ file. file.ward_bits ≡ 0) }
{
    let keyer = PlainKeyer;
    let ward = failing_ward(alloc, keyer, at)?;
    one_ward_file(alloc, keyer, ward, answers, entries)
}

fn failing_ward(alloc: Global, keyer: PlainKeyer, at: u64) -> Result<FailingWard, AllocError>
    ensures { IfOk result (IsNewWardOf 2 0 keyer 0) }
{
    let store = FailingPages::new(first_store(alloc, 0, 0)?, at);
    Ok(Ward::new(alloc, store, CAP as u8, 0, 0, keyer))
}
