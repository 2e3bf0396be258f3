//! Plays stories of live files whose callers are on threads of their own, and of storms, and prints for each how many
//! steps it took, and how many of them differed from what was worked out by hand.

ghost use Rattle.std.specs.Prelude.{◌≡◌};
ghost use Rattle.exh_keyer.specs.Pseudokey.{plain_pseudokey};
ghost use Rattle.exh_live.specs.declared.ledgers.TheConstants.{ANSWER_PARTS, ENTRY_PARTS};

use crate::story::{STORIES, Story};
use exh_copy::{NewCopyFault, new_copy};
use exh_fakes::{Conductor, Reader};
use exh_fixtures::{Difference, Job, Named, Part, Run, Status, Tally, again, has_told_difference};
use exh_frames::{FramedMaker, FramedPages, PlainMaker, PlainPages};
use exh_keyer::PlainKeyer;
use exh_live::{ANSWER_PARTS, ENTRY_PARTS, Identity};
use exh_table::Table;
use std::alloc::AllocError;
use std::marker::Brand;
use std::sync::Wait;
use std::sync::ledger::Blank;
use std::thread::Threads;
use std::time::Clock;

// How many readers of the copy a story may have.
const READERS: u16 = 2;

// How many decoded pages there are beside images.
const CACHE_SIZE: usize = 1;

// Plays a story with a new copy of the directory.
fn with_copy<R: Threads + Wait + Clock + Sync>(
    rt: &R,
    story: Story,
    run: &mut Run,
) -> Result<(), Difference> {
    match new_copy::<Brand>(run.alloc, 0, &Table::new(run.alloc), READERS) {
        Ok((writer, readers)) => {
            let answers = Blank::new(ANSWER_PARTS);
            let entries = Blank::new(ENTRY_PARTS);
            let outcome = play::<R, Brand>(rt, story, run, readers, answers, entries);
            drop(writer.close(rt));
            outcome
        }
        Err(NewCopyFault::Memory) => Err(Difference::Memory(AllocError)),
        Err(NewCopyFault::NoPlace(writer)) => {
            drop(writer.close(rt));
            Err(Difference::Apart(Part::Run))
        }
    }
}

fn play<R: Threads + Wait + Clock + Sync, F: Identity + Sync + Send>(
    rt: &R,
    story: Story,
    run: &mut Run,
    readers: Vec<Reader>,
    answers: Blank,
    entries: Blank,
) -> Result<(), Difference>
    requires answers { (answers.name ≡ F.answers) × (answers.parts ≡ ANSWER_PARTS) }
    requires entries { (entries.name ≡ F.entries) × (entries.parts ≡ ENTRY_PARTS) }
    requires hashed { F.hashing ≡ plain_pseudokey }
{
    let mut copies = readers;
    let signs = Conductor::new(rt, &[]);
    match story {
        Story::HeldLook => crate::held_look::run::<R, F>(rt, run, &mut copies, answers, entries),
        Story::Locks => {
            crate::locks::run::<R, PlainPages, PlainMaker, F>(
                rt,
                run,
                &mut copies,
                &signs,
                &PlainMaker,
                answers,
                entries,
            )
        }
        Story::LocksOverImages => {
            locks_over_images::<R, F>(rt, run, &mut copies, &signs, answers, entries)
        }
        Story::Refill => crate::refill::run::<R, F>(rt, run, &mut copies, &signs, answers, entries),
        Story::Counter => crate::counter::run::<R, F>(rt, run, &mut copies, answers, entries),
        Story::ManyPages => crate::many_pages::run::<R, F>(rt, run, &mut copies, answers, entries),
        Story::Storms(story) => {
            crate::storms::play(rt, story, run);
            Ok(())
        }
    }
}

fn locks_over_images<R: Threads + Wait + Clock + Sync, F: Identity + Sync + Send>(
    rt: &R,
    run: &mut Run,
    copies: &mut Vec<Reader>,
    signs: &Conductor<'_, R>,
    answers: Blank,
    entries: Blank,
) -> Result<(), Difference>
    requires answers { (answers.name ≡ F.answers) × (answers.parts ≡ ANSWER_PARTS) }
    requires entries { (entries.name ≡ F.entries) × (entries.parts ≡ ENTRY_PARTS) }
    requires hashed { F.hashing ≡ plain_pseudokey }
{
    match FramedMaker::new(CACHE_SIZE) {
        Ok(maker) => crate::locks::run::<R, FramedPages<PlainKeyer>, FramedMaker, F>(
            rt, run, copies, signs, &maker, answers, entries,
        ),
        Err(_) => Err(Difference::Apart(Part::Run)),
    }
}

// Plays a story, once more where memory was refused before its first step.
fn play_counted<R: Threads + Wait + Clock + AllocGlobal + Sync>(
    rt: &R,
    story: Story,
    job: &Job<'_, Story>,
) -> Tally {
    let mut run = job.new_run(rt.alloc());
    let outcome = again!(Err(Difference::Memory(_)) => with_copy(rt, story, &mut run));
    run.tally.check(outcome);
    run.tally
}

/// Plays the stories that words ask for, and prints what each came to.
pub fn play_threads<R: Threads + Wait + Clock + Print + Eprint + AllocGlobal + Sync>(
    rt: &R,
    words: &[String],
) -> Status {
    let Some(job) = Job::of_words(words, &STORIES) else {
        return Status::WrongWords;
    };
    let mut has_differed = false;
    for story in job.kinds {
        let tally = play_counted(rt, *story, &job);
        has_differed |= has_told_difference(rt, story.name(), &tally);
    }
    Status::of_runs(has_differed)
}
