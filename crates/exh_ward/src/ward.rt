ghost use Rattle.std.specs.Prelude.{◌≡◌, ◌-◌, ◌^◌, ◌<◌, ◌≤◌, ◌↔◌, ℕ, List, [], ◌∷◌, IsTrue, None};
ghost use Rattle.exh_prefix.specs.Prefix.{Begins};
ghost use Rattle.exh_page.specs.declared.page.TheConstants.{CAP_LIMIT};
ghost use Rattle.exh_page.specs.declared.page.Page.{Page};
ghost use Rattle.exh_page.specs.declared.page.Page.TheVariants.{Live};
ghost use Rattle.exh_page.specs.Page.{IsWellFormed};
ghost use Rattle.exh_prefix.specs.Leading.{ward_prefix};
ghost use Rattle.exh_ward.specs.NewWards.{empty_ward};
ghost use Rattle.exh_ward.specs.WardState.{IsSoundWard, own_prefix};
ghost use Rattle.exh_prefix.specs.declared.prefix.TheConstants.{WARD_BITS_LIMIT};

use exh_calls::{Base, Journal};
use exh_keyer::Keyer;
use exh_legal::{PageIndex, Table, lone_pages_are_legal};
use exh_notice::Notice;
use exh_page::{CAP_LIMIT, Page, Records};
use exh_prefix::Prefix;
use exh_stores::Pages;
use std::alloc::Global;
use std::marker::Model;

mod buddy_sum;
mod change;
mod distance;
mod failures;
mod from_pages;
mod history;
mod hop;
mod merge;
mod readers;
mod split;

/// A part of the file: the pages of all keys whose pseudokeys share the ward's leading bits, with
/// the history of the calls that they answered, and the notices of the splits that they went
/// through. Pages are numbered from 0 on.
#[derive(Drop)]
pub struct Ward<P: Pages + Drop, K: Keyer> {
    cap: usize,
    ward_bits: u8,
    number: u8,
    keyer: K,
    own: Prefix,
    store: P,
    index: PageIndex,
    base: Base,
    journal: Journal,
    start: Table,
    told: u64,
    notices: Vec<Notice>,
    table: Table,
}

impl<P: Pages + Drop, K: Keyer> Model for Ward<P, K> {
    ghost use Rattle.std.specs.Prelude.{◌≤◌, ◌+◌, ◌<◌, ◌^◌, length};
    ghost use Rattle.std.specs.Coded.{codes};
    ghost use Rattle.exh_page.specs.declared.page.TheConstants.{CAP_LIMIT};
    ghost use Rattle.exh_page.specs.KeyMap.{coded_key_map};
    ghost use Rattle.exh_legal.specs.ChangeNumbers.{index_of};
    ghost use Rattle.exh_legal.specs.Pages.{bare};
    ghost use Rattle.exh_legal.specs.PageIndex.{IsIndexOf};
    ghost use Rattle.exh_ward.specs.WardKept.{IsKeptWard};
    ghost use Rattle.exh_legal.specs.Table.{coded_table};
    ghost use Rattle.exh_ward.specs.WardState.{WardState};

    ghost Value = { WardState K };

    ghost coded = { Prim.hlevel (codes, coded_key_map, coded_table) };

    ghost view = { λ a. record { pages = P.pages a.store; base = a.base; journal = a.journal.entries; start = a.start; notices = a.notices.items; table = a.table; failures = P.failures a.store; cap = a.cap; ward_bits = a.ward_bits; number = a.number; keyer = a.keyer } };

    ghost invariant = { λ a. IsKeptWard (K.pseudokey_of a.keyer) (P.takes a.store) a.own a.index a.told (record { pages = P.pages a.store; base = a.base; journal = a.journal.entries; start = a.start; notices = a.notices.items; table = a.table; failures = P.failures a.store; cap = a.cap; ward_bits = a.ward_bits; number = a.number; keyer = a.keyer }) };
}

impl<P: Pages + Drop, K: Keyer> Ward<P, K> {
    /// Ward `number` of a new file, over a store of its first page alone (`first_page`). A page holds
    /// at most `cap` records, 1 to 16; the file is cut into 2^`ward_bits` wards, by 0 to 4 leading bits
    /// of pseudokeys; `number` is those bits as a number. It takes no memory.
    pub fn new(alloc: Global, pages: P, cap: u8, ward_bits: u8, number: u8, keyer: K) -> Ward<P, K>
        requires first { P.pages pages ≡ Live (ward_prefix ward_bits number) None [] ∷ [] }
        requires takes { (page : Page) → IsWellFormed (K.pseudokey_of keyer) page → P.takes pages page }
        requires some { 1 ≤ cap }
        requires most { cap ≤ CAP_LIMIT }
        requires bits { ward_bits ≤ WARD_BITS_LIMIT }
        requires number { number < 2 ^ ward_bits }
        ensures empty { result ≡ record (empty_ward cap ward_bits number keyer) { failures = P.failures pages } }
        ensures sound { IsSoundWard K.pseudokey_of result }
    {
        lone_pages_are_legal();
        Ward {
            cap: cap as usize,
            ward_bits,
            number,
            keyer,
            own: own_prefix(ward_bits, number),
            store: pages,
            index: PageIndex::new(alloc),
            base: Base::new(alloc),
            journal: Journal::new(alloc),
            start: Table::new(alloc),
            told: 0,
            notices: Vec::new(alloc),
            table: Table::new(alloc),
        }
    }

    /// Whether keys of this pseudokey belong to the ward: its number is the pseudokey's leading
    /// bits. It takes no memory.
    pub fn covers(&self, pseudokey: u64) -> bool
        ensures { IsTrue result ↔ Begins (own_prefix self.now) pseudokey }
    {
        self.own.begins(pseudokey)
    }
}

// The prefix of all pseudokeys of a ward.
fn own_prefix(ward_bits: u8, number: u8) -> Prefix
    requires bits { ward_bits ≤ WARD_BITS_LIMIT }
    requires number { number < 2 ^ ward_bits }
    ensures { result ≡ ward_prefix ward_bits number }
{
    Prefix::of_number(ward_bits, u64::from(number))
}

/// The first page of a ward of a new file: live, empty, of the ward's own prefix, with no right
/// link. It is well formed under each keyer. It takes no memory.
pub fn first_page(alloc: Global, ward_bits: u8, number: u8) -> Page
    requires bits { ward_bits ≤ WARD_BITS_LIMIT }
    requires number { number < 2 ^ ward_bits }
    ensures page { result ≡ Live (ward_prefix ward_bits number) None [] }
    ensures formed { (pseudo : List ℕ → ℕ) → IsWellFormed pseudo result }
{
    Page::Live {
        prefix: own_prefix(ward_bits, number),
        right: None,
        records: Records::new(alloc),
    }
}
