//! How many steps a run took, and how many of them differed.
ghost use Rattle.std.specs.Prelude.{◌≡◌, ◌+◌, ◌<◌, ◌↔◌, min, IsTrue, OnOk, OnErr};

use crate::Difference;
use std::fmt;

/// How many steps a run took, how often it differed from the slow code, and where first. A count at
/// its greatest value stays there.
#[derive(Clone, Copy)]
pub struct Tally {
    steps: u32,
    differed: u32,
    first: Option<(u32, Difference)>,
}

impl Tally {
    /// No step so far.
    pub fn new() -> Tally
        ensures steps { result.steps ≡ 0 }
        ensures differed { result.differed ≡ 0 }
    {
        Tally {
            steps: 0,
            differed: 0,
            first: None,
        }
    }

    /// Counts a step, and a difference where it is one.
    pub fn step(&mut self, outcome: Result<(), Difference>)
        ensures steps { self.new.steps ≡ min (self.old.steps + 1) u32.MAX }
        ensures same { OnOk outcome (self.new.differed ≡ self.old.differed) }
        ensures apart { OnErr outcome (self.new.differed ≡ min (self.old.differed + 1) u32.MAX) }
    {
        self.steps = self.steps.saturating_add(1);
        self.check(outcome);
    }

    /// Counts no step, but a difference where it is one, as of what all steps left.
    pub fn check(&mut self, outcome: Result<(), Difference>)
        ensures steps { self.new.steps ≡ self.old.steps }
        ensures same { OnOk outcome (self.new.differed ≡ self.old.differed) }
        ensures apart { OnErr outcome (self.new.differed ≡ min (self.old.differed + 1) u32.MAX) }
    {
        if let Err(difference) = outcome {
            self.differed = self.differed.saturating_add(1);
            if self.first.is_none() {
                self.first = Some((self.steps, difference));
            }
        }
    }

    /// Whether any step or check differed.
    pub fn has_differed(&self) -> bool
        ensures { IsTrue result ↔ 0 < self.now.differed }
    {
        self.differed > 0
    }

    /// The first difference, after how many steps.
    pub fn first(&self) -> Option<(u32, Difference)> {
        self.first
    }
}

impl fmt::Display for Tally {
    fn fmt<W: fmt::Write>(&self, f: &mut fmt::Formatter<W>) -> fmt::Result {
        let steps = self.steps;
        match self.differed {
            0 => write!(f, "{steps} steps, none differed"),
            differed => write!(f, "{steps} steps, {differed} differed"),
        }
    }
}
