ghost use Rattle.std.specs.Prelude.{◌≡◌, ◌^◌, ◌<◌, ◌≤◌, [], length, IfOk, IfErr};
ghost use Rattle.exh_prefix.specs.declared.prefix.TheConstants.{WARD_BITS_LIMIT};
ghost use Rattle.exh_page.specs.declared.page.TheConstants.{CAP_LIMIT};
ghost use Rattle.exh_page.specs.declared.page.Page.{Page};
ghost use Rattle.exh_page.specs.Page.{IsWellFormed};
ghost use Rattle.exh_stores.specs.PageStore.{TakesTheSame};
ghost use Rattle.exh_legal.specs.LegalLaws.{IsWard};
ghost use Rattle.exh_legal.specs.Pages.{bare, map_of};
ghost use Rattle.exh_prefix.specs.Leading.{ward_prefix};
ghost use Rattle.exh_ward.specs.FromPages.{HaveOwnBounds};
ghost use Rattle.exh_legal.specs.PageIndex.{IsIndexOf};
ghost use Rattle.exh_ward.specs.WardFault.{CountsFailures, IsStoreFault};
ghost use Rattle.exh_ward.specs.WardState.{IsSoundWard};
ghost use Rattle.exh_ward.specs.declared.ward_fault.WardFault.TheVariants.{Page as OutOfReach};

use super::history::read_base;
use super::{Ward, own_prefix};
use crate::WardFault;
use exh_calls::Journal;
use exh_keyer::Keyer;
use exh_legal::{Join, PageIndex, Table, entries_are_few, index_of, own_entries_give_the_table};
use exh_page::CAP_LIMIT;
use exh_stores::Pages;
use std::alloc::Global;

impl<P: Pages + Drop, K: Keyer> Ward<P, K> {
    /// Ward `number` of a file that was written: its pages, and the table of the changes that they
    /// went through, which is its start table. They are a legal ward for that table and no change
    /// since. Its base is the map of its pages, its journal is empty, and its notices go on after the
    /// changes that the table tells of. `cap`, `ward_bits` and `number` are as in `new`.
    ///
    /// It takes memory for a copy of the table, for each page but page 0 and for each record:
    /// `WardFault::Memory` where that is refused. Each page's head is read once, and each page fetched
    /// once, which the store may refuse as it does. Nothing else is refused.
    pub fn from_pages(
        alloc: Global,
        cap: u8,
        ward_bits: u8,
        number: u8,
        pages: P,
        table: Table,
        keyer: K,
    ) -> Result<Ward<P, K>, WardFault>
        requires legal { IsWard cap (K.pseudokey_of keyer) (ward_prefix ward_bits number) table [] table (P.pages pages) }
        requires takes { (page : Page) → IsWellFormed (K.pseudokey_of keyer) page → P.takes pages page }
        requires some { 1 ≤ cap }
        requires most { cap ≤ CAP_LIMIT }
        requires bits { ward_bits ≤ WARD_BITS_LIMIT }
        requires number { number < 2 ^ ward_bits }
        ensures ward { IfOk result (λ ward. ward ≡ record { pages = P.pages pages; base = map_of (P.pages pages); journal = []; start = table; notices = []; table = table; failures = P.failures pages; cap = cap; ward_bits = ward_bits; number = number; keyer = keyer }) }
        ensures sound { IfOk result (IsSoundWard K.pseudokey_of) }
        ensures fault { IfErr result IsStoreFault }
        ensures page_fault { IfErr result (λ fault. fault ≡ OutOfReach → (left : P) × (P.failures pages < P.failures left)) }
    {
        own_entries_give_the_table();
        entries_are_few();
        let mut store = pages;
        let index = read_index(alloc, &mut store)?;
        let base = read_base(alloc, &mut store)?;
        let start = table.try_clone()?;
        Ok(Ward {
            cap: cap as usize,
            ward_bits,
            number,
            keyer,
            own: own_prefix(ward_bits, number),
            store,
            index,
            base,
            journal: Journal::new(alloc),
            start,
            told: index_of(&table),
            notices: Vec::new(alloc),
            table,
        })
    }
}

// The index of a store's pages, by their heads. Page 0 isn't in it.
fn read_index<P: Pages>(alloc: Global, store: &mut P) -> Result<PageIndex, WardFault>
    requires apart { HaveOwnBounds (P.pages store.old) }
    ensures index { IfOk result (λ index. IsIndexOf index (bare (P.pages store.old))) }
    ensures pages { P.pages store.new ≡ P.pages store.old }
    ensures fault { IfErr result IsStoreFault }
    ensures failures { CountsFailures result (P.failures store.old) (P.failures store.new) }
    ensures takes { TakesTheSame P.takes store.old store.new }
{
    let mut index = PageIndex::new(alloc);
    for number in 1..store.count() {
        let head = store.head(number)?;
        index.insert(head.low(), number)?;
    }
    Ok(index)
}
