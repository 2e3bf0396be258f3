ghost use Rattle.exh_join.specs.Pair.{IsPairAtMost, pair_join, pair_laws};

use crate::Join;
use std::alloc::AllocError;

/// Two values side by side, each joined by its own join.
#[derive(Clone, Copy, PartialEq, Eq, Drop)]
pub struct PairOf<A, B> {
    pub first: A,
    pub second: B,
}

impl<A: Join, B: Join> Join for PairOf<A, B> {
    ghost IsAtMost = { IsPairAtMost A.IsAtMost B.IsAtMost };

    ghost join = { pair_join A.join B.join };

    ghost laws = { pair_laws A.laws B.laws };

    fn at_most(&self, other: &PairOf<A, B>) -> bool {
        self.first.at_most(&other.first) && self.second.at_most(&other.second)
    }

    fn try_clone(&self) -> Result<PairOf<A, B>, AllocError> {
        Ok(PairOf {
            first: self.first.try_clone()?,
            second: self.second.try_clone()?,
        })
    }

    fn join_in(&mut self, other: &PairOf<A, B>) -> Result<(), AllocError> {
        let mut first = self.first.try_clone()?;
        first.join_in(&other.first)?;
        // The last step that may be refused: the first half changes only after it.
        self.second.join_in(&other.second)?;
        self.first = first;
        Ok(())
    }
}
