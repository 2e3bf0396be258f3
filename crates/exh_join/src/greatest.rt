ghost use Rattle.std.specs.Prelude.{◌≡◌, Ok, IsOk};
ghost use Rattle.exh_join.specs.Greatest.{greatest_cmp, greatest_laws};
ghost use Rattle.exh_join.specs.Greater.{IsUpTo, greater};

use crate::Join;
use std::alloc::AllocError;

/// A number that only grows: the join of two is the greater.
#[derive(Clone, Copy, PartialEq, Eq, PartialOrd, Ord)]
pub struct Greatest {
    pub number: u64,
}

impl Join for Greatest {
    ghost IsAtMost = { IsUpTo greatest_cmp };

    ghost join = { greater greatest_cmp };

    ghost laws = { greatest_laws };

    fn at_most(&self, other: &Greatest) -> bool {
        self <= other
    }

    /// It takes no memory, and always succeeds.
    fn try_clone(&self) -> Result<Greatest, AllocError>
        ensures { result ≡ Ok self.now }
    {
        Ok(*self)
    }

    /// It takes no memory, and always succeeds.
    fn join_in(&mut self, other: &Greatest) -> Result<(), AllocError>
        ensures succeeds { IsOk result }
        ensures joined { self.new ≡ greater greatest_cmp self.old other.now }
    {
        if *self < *other {
            *self = *other;
        }
        Ok(())
    }
}
