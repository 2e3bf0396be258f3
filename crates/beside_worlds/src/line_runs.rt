//! Answers lines of scripts over worlds that no script begins, beside what was worked out by hand, and prints for each
//! kind of run how many steps it took, and how many of them differed: over pages that are out of reach, and over the
//! wards that another world left.
//!
//! Where a growth is refused a run begins once more: so it prints the same where memory is refused once, wherever that
//! is.

use exh_fixtures::{Difference, Named, Run, RunKind, Status, run_kinds};

#[derive(Clone, Copy)]
enum Kind {
    /// Page faults.
    Faults,
    /// A world made anew of the wards of another.
    Anew,
}

const KINDS: [Kind; 2] = [Kind::Faults, Kind::Anew];

impl Kind {
    fn take_once(self, run: &mut Run) -> Result<(), Difference> {
        match self {
            Kind::Faults => crate::faults::run(run),
            Kind::Anew => crate::anew::run(run),
        }
    }
}

impl Named for Kind {
    fn name(self) -> &'static str {
        match self {
            Kind::Faults => "faults",
            Kind::Anew => "anew",
        }
    }
}

impl RunKind for Kind {
    // Where memory is refused for a world of wards, these are gone: so a run begins once more.
    fn take_steps(self, run: &mut Run) -> Result<(), Difference> {
        let start = *run;
        match self.take_once(run) {
            Err(Difference::Memory(_)) => {
                *run = start;
                self.take_once(run)
            }
            outcome => outcome,
        }
    }
}

/// Makes the runs that words ask for, and prints what each came to.
pub fn run_lines(rt: &(impl Print + Eprint + AllocGlobal), words: &[String]) -> Status {
    run_kinds(rt, words, &KINDS)
}
