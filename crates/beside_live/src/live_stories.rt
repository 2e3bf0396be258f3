//! Plays stories of live files, and prints for each how many steps it took, and how many of them
//! differed from what was worked out by hand.
//!
//! Each growth that is refused is asked for once more, and a refused call is asked once more: so it
//! prints the same where memory is refused once, wherever that is.

ghost use Rattle.std.specs.Prelude.{◌≡◌, ◌≤◌};
ghost use Rattle.std.specs.FinMap as map;
ghost use Rattle.exh_keyer.specs.Pseudokey.{plain_pseudokey};
ghost use Rattle.exh_copy.specs.Additions.{AreOf};
ghost use Rattle.exh_live.specs.declared.ledgers.TheConstants.{ANSWER_PARTS, ENTRY_PARTS};
ghost use Rattle.exh_prefix.specs.declared.prefix.TheConstants.{WARD_BITS_LIMIT};

use crate::callers::CALLERS;
use crate::one_caller::OneCaller;
use exh_copy::{NewCopyFault, Start, new_copy};
use exh_fakes::{Reader, Writer};
use exh_fixtures::{Difference, Job, Named, Part, Run, Status, Tally, again, has_told_difference};
use exh_live::{ANSWER_PARTS, ENTRY_PARTS, Identity};
use exh_table::Table;
use std::alloc::AllocError;
use std::marker::Brand;
use std::sync::Wait;
use std::sync::ledger::Blank;
use std::thread::Threads;

// How many readers of the copy a story may have.
const READERS: u16 = CALLERS + 1;

#[derive(Clone, Copy)]
enum Story {
    /// Of one caller.
    OneCaller(OneCaller),
    /// Closing, and settling.
    Closing,
    /// Pages that are out of reach.
    Faults,
    /// Many callers on threads of their own.
    Callers,
}

// All of them, in the order in which they are played.
const STORIES: [Story; 18] = [
    Story::OneCaller(OneCaller::ToldCopy),
    Story::Closing,
    Story::OneCaller(OneCaller::Courier),
    Story::OneCaller(OneCaller::Keeper),
    Story::OneCaller(OneCaller::FourWards),
    Story::OneCaller(OneCaller::SixteenWards),
    Story::OneCaller(OneCaller::Long),
    Story::OneCaller(OneCaller::FarBehind),
    Story::OneCaller(OneCaller::EvenHalf),
    Story::OneCaller(OneCaller::OddHalf),
    Story::OneCaller(OneCaller::OpenedCourier),
    Story::OneCaller(OneCaller::MergedCourier),
    Story::OneCaller(OneCaller::LateCourier),
    Story::OneCaller(OneCaller::WornKeeper),
    Story::Callers,
    Story::OneCaller(OneCaller::WrongHint),
    Story::OneCaller(OneCaller::SevenSplits),
    Story::Faults,
];

// Played where they are named, since growths are refused in them on asking.
const REFUSED_STORIES: [Story; 1] = [Story::OneCaller(OneCaller::RefusedCourier)];

impl Story {
    // By how many leading bits of pseudokeys the copy of the directory is cut.
    fn ward_bits(self) -> u8
        ensures { result ≤ WARD_BITS_LIMIT }
    {
        match self {
            Story::OneCaller(story) => story.ward_bits(),
            Story::Closing | Story::Faults | Story::Callers => 0,
        }
    }
}

impl Named for Story {
    fn name(self) -> &'static str {
        match self {
            Story::OneCaller(OneCaller::ToldCopy) => "told-copy",
            Story::OneCaller(OneCaller::Courier) => "courier",
            Story::OneCaller(OneCaller::Keeper) => "keeper",
            Story::OneCaller(OneCaller::FourWards) => "four-wards",
            Story::OneCaller(OneCaller::SixteenWards) => "sixteen-wards",
            Story::OneCaller(OneCaller::Long) => "long",
            Story::OneCaller(OneCaller::FarBehind) => "far-behind",
            Story::OneCaller(OneCaller::EvenHalf) => "even-half",
            Story::OneCaller(OneCaller::OddHalf) => "odd-half",
            Story::OneCaller(OneCaller::OpenedCourier) => "opened-courier",
            Story::OneCaller(OneCaller::MergedCourier) => "merged-courier",
            Story::OneCaller(OneCaller::LateCourier) => "late-courier",
            Story::OneCaller(OneCaller::WornKeeper) => "worn-keeper",
            Story::OneCaller(OneCaller::WrongHint) => "wrong-hint",
            Story::OneCaller(OneCaller::SevenSplits) => "seven-splits",
            Story::OneCaller(OneCaller::RefusedCourier) => "refused-courier",
            Story::Closing => "closing",
            Story::Faults => "faults",
            Story::Callers => "callers",
        }
    }
}

// Plays a story.
fn play_story<R: Threads + Wait + Sync>(
    rt: &R,
    story: Story,
    run: &mut Run,
) -> Result<(), Difference> {
    let ward_bits = story.ward_bits();
    with_copy::<R, Brand>(rt, story, ward_bits, run)
}

// Plays a story with a new copy of the directory, which is cut by so many bits.
fn with_copy<R: Threads + Wait + Sync, S: Start + Sync + Send>(
    rt: &R,
    story: Story,
    ward_bits: u8,
    run: &mut Run,
) -> Result<(), Difference>
    requires bits { ward_bits ≤ WARD_BITS_LIMIT }
    requires copy { S.ward_bits ≡ ward_bits }
    requires table { S.table ≡ map.empty }
{
    match new_copy::<S>(run.alloc, ward_bits, &Table::new(run.alloc), READERS) {
        Ok((mut writer, mut readers)) => {
            let answers = Blank::new(ANSWER_PARTS);
            let entries = Blank::new(ENTRY_PARTS);
            let outcome = play::<R, Brand, S>(
                rt,
                story,
                ward_bits,
                run,
                &mut writer,
                &mut readers,
                answers,
                entries,
            );
            drop(writer.close(rt));
            outcome
        }
        Err(NewCopyFault::Memory) => Err(Difference::Memory(AllocError)),
        Err(NewCopyFault::NoPlace(writer)) => {
            drop(writer.close(rt));
            Err(Difference::Apart(Part::Run))
        }
    }
}

fn play<R: Threads + Wait + Sync, F: Identity + Sync + Send, S: Start + Sync + Send>(
    rt: &R,
    story: Story,
    ward_bits: u8,
    run: &mut Run,
    writer: &mut Writer<S>,
    copies: &mut Vec<Reader<S>>,
    answers: Blank,
    entries: Blank,
) -> Result<(), Difference>
    requires bits { ward_bits ≤ WARD_BITS_LIMIT }
    requires copy { S.ward_bits ≡ ward_bits }
    requires table { S.table ≡ map.empty }
    requires answers { (answers.name ≡ F.answers) × (answers.parts ≡ ANSWER_PARTS) }
    requires entries { (entries.name ≡ F.entries) × (entries.parts ≡ ENTRY_PARTS) }
    requires hashed { F.hashing ≡ plain_pseudokey }
    requires own { AreOf writer.old.name copies.old.items }
{
    match story {
        Story::OneCaller(story) => crate::one_caller::run::<R, F, S>(
            rt, run, story, ward_bits, writer, copies, answers, entries,
        ),
        Story::Closing => crate::closing::run(rt, run, copies),
        Story::Faults => crate::faults::run(rt, run),
        Story::Callers => crate::callers::run::<R, F, S>(rt, run, copies, answers, entries),
    }
}

// Plays a story, once more where memory was refused before its first step.
fn play_counted<R: Threads + Wait + AllocGlobal + Sync>(
    rt: &R,
    story: Story,
    job: &Job<'_, Story>,
) -> Tally {
    let mut run = job.new_run(rt.alloc());
    let outcome = again!(Err(Difference::Memory(_)) => play_story(rt, story, &mut run));
    run.tally.check(outcome);
    run.tally
}

// The stories that words ask for.
fn job_of(words: &[String]) -> Option<Job<'static, Story>> {
    match Job::of_words(words, &STORIES) {
        Some(job) => Some(job),
        None => Job::of_words(words, &REFUSED_STORIES),
    }
}

/// Plays the stories that words ask for, and prints what each came to.
pub fn play_live<R: Threads + Wait + Print + Eprint + AllocGlobal + Sync>(
    rt: &R,
    words: &[String],
) -> Status {
    let Some(job) = job_of(words) else {
        return Status::WrongWords;
    };
    let mut has_differed = false;
    for story in job.kinds {
        let tally = play_counted(rt, *story, &job);
        has_differed |= has_told_difference(rt, story.name(), &tally);
    }
    Status::of_runs(has_differed)
}
