ghost use Rattle.std.specs.Prelude.{◌≡◌, ℕ, ◌<◌, ◌≤◌, length, IfOk, IfErr, OnErr};
ghost use Rattle.std.specs.Option.{MatchOption};
ghost use Rattle.exh_prefix.specs.declared.prefix.TheConstants.{LIMIT};
ghost use Rattle.exh_page.specs.PageHead.{count_in};
ghost use Rattle.exh_page.specs.declared.page.TheConstants.{CAP_LIMIT};
ghost use Rattle.exh_ward.specs.BuddySum.{HasSumBeside, IsBuddySum};
ghost use Rattle.exh_ward.specs.WardFault.{IsStoreFault, CountsFailures};
ghost use Rattle.exh_ward.specs.WardState.{IsSoundWard, IsUnchanged};

use super::Ward;
use crate::WardFault;
use exh_keyer::Keyer;
use exh_legal::{HalvesFault, LeftHalf, left_children_link_to_siblings};
use exh_page::PageHead;
use exh_prefix::PageNo;
use exh_stores::Pages;

impl<P: Pages + Drop, K: Keyer> Ward<P, K> {
    /// How many records a live page, the left half of its parent, has together with the live page of
    /// the right half: what a merge would put into one page. `None` where there is no such page, it
    /// isn't live, its prefix is the ward's own or ends in 1, or its right buddy isn't live. No
    /// record is read. Refused at any point: `Memory` and `Page`. Then the ward is as before.
    pub fn buddy_sum(&mut self, page: PageNo) -> Result<Option<u32>, WardFault>
        ensures sum { IfOk result (IsBuddySum self.old page) }
        ensures fault { IfErr result IsStoreFault }
        ensures ok { IfOk result (λ _. self.new ≡ self.old) }
        ensures err { OnErr result (IsUnchanged self.old self.new) }
        ensures failures { CountsFailures result self.old.failures self.new.failures }
        ensures sound { IsSoundWard K.pseudokey_of self.new }
    {
        left_children_link_to_siblings();
        if page >= self.store.count() {
            return Ok(None);
        }
        let Ok(half) = LeftHalf::of(self.store.head(page)?, self.own) else {
            return Ok(None);
        };
        let Some(right) = half.right else {
            unreachable!()
        };
        Ok(sum_beside(&half, self.store.head(right)?))
    }
}

// How many records a left half has together with its right buddy, where the page is that.
fn sum_beside(half: &LeftHalf, page: PageHead) -> Option<u32>
    requires short { length half.now.parent < LIMIT }
    requires few { half.now.count ≤ CAP_LIMIT }
    requires few_others { count_in page ≤ CAP_LIMIT }
    ensures { MatchOption result ((sum : ℕ) → HasSumBeside half.now page sum → ⊥) (HasSumBeside half.now page) }
{
    // Halves that have any record don't fit where none may be, and are then told by their sum.
    match half.test_buddy(page, 0) {
        Ok(()) => Some(0),
        Err(HalvesFault::TooMany(sum)) => Some(sum as u32),
        Err(_) => None,
    }
}
