ghost use Rattle.std.specs.Prelude.{◌≡◌, Ok, IsOk};
ghost use Rattle.exh_join.specs.Greater.{IsUpTo, greater};
ghost use Rattle.exh_notice.specs.Entry.{entry_cmp};
ghost use Rattle.exh_notice.specs.EntryLemmas.{entry_laws};

use exh_join::Join;
use exh_prefix::PageNo;
use std::alloc::AllocError;

/// What was done at a prefix. Merges come before splits, and splits are ordered by right page.
#[derive(Clone, Copy, Debug, PartialEq, Eq, PartialOrd, Ord)]
pub enum Kind {
    /// The page of the prefix took in its right buddy.
    Merge,
    /// The page of the prefix kept its left child, and the page `right` got the right one.
    Split { right: PageNo },
}

/// What a table has at a prefix: the number of the last split or merge there, from 1 on, and which
/// it was. Entries are ordered by number, then by kind.
#[derive(Clone, Copy, PartialEq, Eq, PartialOrd, Ord)]
pub struct Entry {
    pub number: u32,
    pub kind: Kind,
}

impl Join for Entry {
    ghost IsAtMost = { IsUpTo entry_cmp };

    ghost join = { greater entry_cmp };

    ghost laws = { entry_laws };

    fn at_most(&self, other: &Entry) -> bool {
        self <= other
    }

    /// It takes no memory, and always succeeds.
    fn try_clone(&self) -> Result<Entry, AllocError>
        ensures { result ≡ Ok self.now }
    {
        Ok(*self)
    }

    /// It takes no memory, and always succeeds.
    fn join_in(&mut self, other: &Entry) -> Result<(), AllocError>
        ensures succeeds { IsOk result }
        ensures joined { self.new ≡ greater entry_cmp self.old other.now }
    {
        if *self < *other {
            *self = *other;
        }
        Ok(())
    }
}
