//! What every run carries along.

use crate::{Dice, Lie, Tally};
use std::alloc::Global;

/// The rounds of a run with no words.
pub(crate) const USUAL_ROUNDS: u32 = 1200;

/// What a run carries along: the memory that it takes, its dice, how long it is, the wrong answer
/// that is due, and the count of its steps.
#[derive(Clone, Copy)]
pub struct Run {
    pub alloc: Global,
    pub dice: Dice,
    pub rounds: u32,
    pub lie: Lie,
    pub tally: Tally,
}

impl Run {
    /// The start of a run of so many rounds, which tells one wrong answer or none.
    pub fn new(alloc: Global, seed: u64, rounds: u32, is_wrong: bool) -> Run {
        Run {
            alloc,
            dice: Dice::new(seed),
            rounds,
            lie: Lie::new(is_wrong),
            tally: Tally::new(),
        }
    }
}
