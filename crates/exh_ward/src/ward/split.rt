ghost use Rattle.std.specs.Prelude.{◌≡◌, IfOk, IfErr, OnErr};
ghost use Rattle.exh_ward.specs.SplitStep.{IsHalved, IsSplitStep};
ghost use Rattle.exh_ward.specs.WardFault.{SplitRefused, IsStoreFault, CountsFailures};
ghost use Rattle.exh_ward.specs.WardState.{IsSoundWard, IsUnchanged};

use super::Ward;
use super::change::{notice_after, take_or_forget};
use crate::WardFault;
use exh_keyer::Keyer;
use exh_legal::{halved_prefix, live_pages_split, pages_are_few, splits_keep_legal};
use exh_notice::{Kind, Notice};
use exh_prefix::{PageNo, Prefix};
use exh_stores::Pages;

impl<P: Pages + Drop, K: Keyer> Ward<P, K> {
    /// Splits a live page that has as many records as a page may, and tells so (Fagin et al. 1979;
    /// the new page's place and the notice are exhash's own). The page keeps its prefix's left
    /// child. The page of the right child's low bound, a new one or the forwarding page there, gets
    /// the right child and the page's right link, and becomes its right link. Refused in this order:
    /// `NoPage`, `NotLive`, `NotFull`, `AtLimit`; at any point `Memory` and `Page`. Then the ward is as
    /// before.
    pub fn split(&mut self, page: PageNo) -> Result<Notice, WardFault>
        ensures ok { IfOk result (λ notice. IsSplitStep self.old page notice self.new) }
        ensures refused { IfErr result (SplitRefused self.old.cap self.old.pages page) }
        ensures err { OnErr result (IsUnchanged self.old self.new) }
        ensures failures { CountsFailures result self.old.failures self.new.failures }
        ensures sound { IsSoundWard K.pseudokey_of self.new }
    {
        let prefix = self.prefix_to_halve(page)?;
        self.halve(page, prefix)
    }

    // The prefix of a page that may be split. No record of it is read.
    fn prefix_to_halve(&mut self, page: PageNo) -> Result<Prefix, WardFault>
        ensures halved { IfOk result (IsHalved self.old page) }
        ensures refused { IfErr result (SplitRefused self.old.cap self.old.pages page) }
        ensures ok { IfOk result (λ _. self.new ≡ self.old) }
        ensures err { OnErr result (IsUnchanged self.old self.new) }
        ensures failures { CountsFailures result self.old.failures self.new.failures }
        ensures sound { IsSoundWard K.pseudokey_of self.new }
    {
        if page >= self.store.count() {
            return Err(WardFault::NoPage);
        }
        let head = self.store.head(page)?;
        Ok(halved_prefix(head, self.cap)?)
    }

    // Splits a page of this prefix into itself and the page at the right child's low bound, which is looked
    // up once, and tells of it.
    fn halve(&mut self, page: PageNo, prefix: Prefix) -> Result<Notice, WardFault>
        requires { IsHalved self.old page prefix }
        ensures ok { IfOk result (λ notice. IsSplitStep self.old page notice self.new) }
        ensures err { OnErr result (IsUnchanged self.old self.new) }
        ensures fault { IfErr result IsStoreFault }
        ensures failures { CountsFailures result self.old.failures self.new.failures }
        ensures sound { IsSoundWard K.pseudokey_of self.new }
    {
        splits_keep_legal();
        live_pages_split();
        pages_are_few();
        let low = prefix.child(true).unwrap().low();
        let index = self.next_index();
        let count = self.store.count();
        if let Some(at) = self.index.get_or_insert(low, count)? {
            return self.change_two(page, at, prefix, Kind::Split { right: at });
        }
        let kind = Kind::Split { right: count };
        let stood = take_or_forget(
            &mut self.notices,
            &mut self.table,
            &mut self.index,
            (prefix, kind, low),
        )?;
        if let Err(fault) = self.store.split_off(page) {
            self.table.put_back(prefix, stood);
            self.index.remove(low);
            return Err(fault.into());
        }
        let notice = &notice_after(stood, self.number, index, prefix, kind);
        self.notices.push_reserved(*notice);
        Ok(*notice)
    }
}
