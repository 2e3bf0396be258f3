//! Has what is refused refused on purpose, each growth, page call, write and read in turn, and prints for each kind of
//! run how many steps it took, and how many of them differed.
//!
//! Where a growth is refused outside of what a run is about, the run begins once more.

use exh_fixtures::{Difference, Job, Named, Run, Status, Tally, has_told_difference};

#[derive(Clone, Copy)]
enum Kind {
    /// Events at once.
    Turns,
    /// Events at once, with each page call refused.
    PageTurns,
    /// The same over a store that writes only what `Pages` has no body for.
    ListedTurns,
    /// The same over pages that stand as images.
    ImageTurns,
    /// A file that is written, with each write refused.
    Writers,
    /// A file that is opened, with each read refused.
    Readers,
    /// A file that is opened and written, with each page call refused.
    Stores,
}

const KINDS: [Kind; 7] = [
    Kind::Turns,
    Kind::PageTurns,
    Kind::ListedTurns,
    Kind::ImageTurns,
    Kind::Writers,
    Kind::Readers,
    Kind::Stores,
];

impl Kind {
    // Takes the steps of a run.
    fn take_steps<R: Eprint>(self, rt: &R, run: &mut Run) -> Result<(), Difference> {
        match self {
            Kind::Turns => crate::turns::run(rt, run),
            Kind::PageTurns => crate::page_turns::run(run),
            Kind::ListedTurns => crate::page_turns::run_over_lists(run),
            Kind::ImageTurns => crate::page_turns::run_over_images(run),
            Kind::Writers => crate::writers::run(run),
            Kind::Readers => crate::readers::run(run),
            Kind::Stores => crate::stores::run(run),
        }
    }
}

impl Named for Kind {
    fn name(self) -> &'static str {
        match self {
            Kind::Turns => "turns",
            Kind::PageTurns => "page-turns",
            Kind::ListedTurns => "listed-turns",
            Kind::ImageTurns => "image-turns",
            Kind::Writers => "writers",
            Kind::Readers => "readers",
            Kind::Stores => "stores",
        }
    }
}

// Makes a run, once more where a growth was refused outside of what it is about.
fn run_counted<R: Eprint + AllocGlobal>(rt: &R, kind: Kind, job: &Job<'_, Kind>) -> Tally {
    let mut run = job.new_run(rt.alloc());
    let mut outcome = kind.take_steps(rt, &mut run);
    if let Err(Difference::Memory(_)) = outcome {
        run = job.new_run(rt.alloc());
        outcome = kind.take_steps(rt, &mut run);
    }
    run.tally.check(outcome);
    run.tally
}

/// Makes the runs that words ask for, and prints what each came to.
pub fn run_refusals(rt: &(impl Print + Eprint + AllocGlobal), words: &[String]) -> Status {
    let Some(job) = Job::of_words(words, &KINDS) else {
        return Status::WrongWords;
    };
    let mut has_differed = false;
    for kind in job.kinds {
        let tally = run_counted(rt, *kind, &job);
        has_differed |= has_told_difference(rt, kind.name(), &tally);
    }
    Status::of_runs(has_differed)
}
