ghost use Rattle.std.specs.Prelude.{◌≡◌, ◌++◌, map, IfOk, IfErr, OnOk, OnErr};
ghost use Rattle.exh_page.specs.KeyMap.{pair_of};
ghost use Rattle.exh_page.specs.Page.{records_of};
ghost use Rattle.exh_stores.specs.PageStore.{TakesTheSame};
ghost use Rattle.exh_legal.specs.Pages.{map_of};
ghost use Rattle.exh_ward.specs.WardFault.{CountsFailures, IsStoreFault};
ghost use Rattle.exh_ward.specs.WardState.{IsSoundWard, IsUnchanged, history_begun};

use super::Ward;
use crate::WardFault;
use exh_calls::{Base, PackedPairs};
use exh_keyer::Keyer;
use exh_page::{Page, Records};
use exh_stores::Pages;
use std::alloc::{AllocError, Global};

impl<P: Pages + Drop, K: Keyer> Ward<P, K> {
    /// Begins the history anew: its base is the map of the pages as they are now, and the journal has
    /// no entry. The new base is made beside the old one, which is then let go; the journal keeps its
    /// room. Refused: at any point `Memory` and `Page`. Then the ward is as before.
    pub fn begin_history(&mut self) -> Result<(), WardFault>
        ensures begun { OnOk result (self.new ≡ history_begun self.old) }
        ensures err { OnErr result (IsUnchanged self.old self.new) }
        ensures fault { IfErr result IsStoreFault }
        ensures failures { CountsFailures result self.old.failures self.new.failures }
        ensures sound { IsSoundWard K.pseudokey_of self.new }
    {
        let alloc = *self.notices.allocator();
        let base = read_base(alloc, &mut self.store)?;
        self.base = base;
        self.journal.clear();
        Ok(())
    }
}

// The map of a store's pages, of which each is fetched once.
pub(super) fn read_base<P: Pages>(alloc: Global, store: &mut P) -> Result<Base, WardFault>
    ensures base { IfOk result (λ base. base ≡ map_of (P.pages store.old)) }
    ensures pages { P.pages store.new ≡ P.pages store.old }
    ensures fault { IfErr result IsStoreFault }
    ensures failures { CountsFailures result (P.failures store.old) (P.failures store.new) }
    ensures takes { TakesTheSame P.takes store.old store.new }
{
    let mut pairs = PackedPairs::new(alloc);
    for number in 0..store.count() {
        store.fetch(number)?;
        push_page(&mut pairs, store.fetched(number))?;
    }
    Ok(Base::from_pairs(pairs))
}

fn push_page(pairs: &mut PackedPairs, page: &Page) -> Result<(), AllocError>
    ensures { OnOk result (pairs.new ≡ pairs.old ++ map pair_of (records_of page.now)) }
{
    match page {
        Page::Live { records, .. } => push_pairs(pairs, records),
        Page::Forward { .. } => Ok(()),
    }
}

fn push_pairs(pairs: &mut PackedPairs, records: &Records) -> Result<(), AllocError>
    ensures { OnOk result (pairs.new ≡ pairs.old ++ map pair_of records.now) }
{
    for item in records.iter() {
        pairs.push(&item.key, &item.value)?;
    }
    Ok(())
}
