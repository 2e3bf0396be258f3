//! The kinds of run of a program.

use crate::{Difference, Run};

/// What a word names.
pub trait Named: Copy {
    /// The word that names it.
    fn name(self) -> &'static str;
}

/// A kind of run.
pub trait RunKind: Named {
    /// Takes the steps of a run, and counts each. A `Difference` where what they left isn't as it
    /// should be, or where a step couldn't be made.
    fn take_steps(self, run: &mut Run) -> Result<(), Difference>;
}
