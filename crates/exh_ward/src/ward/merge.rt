ghost use Rattle.std.specs.Prelude.{◌≡◌, IfOk, IfErr, OnErr};
ghost use Rattle.exh_notice.specs.declared.entry.Kind.TheVariants.{Merge};
ghost use Rattle.exh_ward.specs.MergeStep.{FitTogether, IsMergeStep};
ghost use Rattle.exh_ward.specs.Told.{MayChange};
ghost use Rattle.exh_ward.specs.WardFault.{MergeRefused, CountsFailures};
ghost use Rattle.exh_ward.specs.WardState.{IsSoundWard, IsUnchanged};

use super::Ward;
use crate::WardFault;
use exh_keyer::Keyer;
use exh_legal::{
    LeftHalf, buddies_unite, left_children_link_to_siblings, merges_keep_legal, pages_are_few,
};
use exh_notice::{Kind, Notice};
use exh_prefix::{PageNo, Prefix};
use exh_stores::Pages;

impl<P: Pages + Drop, K: Keyer> Ward<P, K> {
    /// Merges a live page, the left half of its parent, with the live page of the right half, and
    /// tells so (Fagin et al. 1979; forwarding pages and the notice are exhash's own). The page
    /// gets the parent's prefix, the records of both in order and the right one's right link; the
    /// right one sends callers on to it, from its own low bound. Refused in this order: `NoPage`,
    /// `NotLive`, `NoBuddy`, `BuddySplit`, `TooMany`, `Worn`; at any point `Memory` and `Page`. Then
    /// the ward is as before.
    pub fn merge(&mut self, page: PageNo) -> Result<Notice, WardFault>
        ensures ok { IfOk result (λ notice. IsMergeStep self.old page notice self.new) }
        ensures refused { IfErr result (MergeRefused self.old page) }
        ensures err { OnErr result (IsUnchanged self.old self.new) }
        ensures failures { CountsFailures result self.old.failures self.new.failures }
        ensures sound { IsSoundWard K.pseudokey_of self.new }
    {
        merges_keep_legal();
        let (parent, right) = self.fitting_buddy(page)?;
        self.change_two(page, right, parent, Kind::Merge)
    }

    // The parent of a page's prefix, and the number of the page's right buddy, where both pages fit into
    // one. No record of them is read, so that a merge that they refuse takes no memory. The buddy is found
    // by the page's own right link, so that no table is walked.
    fn fitting_buddy(&mut self, page: PageNo) -> Result<(Prefix, PageNo), WardFault>
        ensures fit { IfOk result (λ found. FitTogether self.old page found.0 found.1) }
        ensures may { IfOk result (λ found. MayChange (K.pseudokey_of self.old.keyer) self.old page found.1 found.0 Merge) }
        ensures refused { IfErr result (MergeRefused self.old page) }
        ensures ok { IfOk result (λ _. self.new ≡ self.old) }
        ensures err { OnErr result (IsUnchanged self.old self.new) }
        ensures failures { CountsFailures result self.old.failures self.new.failures }
        ensures sound { IsSoundWard K.pseudokey_of self.new }
    {
        left_children_link_to_siblings();
        merges_keep_legal();
        buddies_unite();
        pages_are_few();
        if page >= self.store.count() {
            return Err(WardFault::NoPage);
        }
        let half = LeftHalf::of(self.store.head(page)?, self.own)?;
        let Some(right) = half.right else {
            unreachable!()
        };
        let buddy = self.store.head(right)?;
        half.test_buddy(buddy, self.cap)?;
        Ok((half.parent, right))
    }
}
