//! A ward of pages and a table that were written.
ghost use Rattle.std.specs.Prelude.{◌≡◌, ◌<◌, ◌≤◌, ◌^◌, ◌%◌, [], length, IfOk};
ghost use Rattle.exh_prefix.specs.declared.prefix.TheConstants.{LIMIT, WARD_BITS_LIMIT};
ghost use Rattle.exh_page.specs.declared.page.Page.TheVariants.{Live};
ghost use Rattle.exh_prefix.specs.Leading.{ward_prefix};
ghost use Rattle.exh_fixtures.specs.OpenedWard.{entry_of_split, halves};

use crate::again;
use exh_keyer::Keyer;
use exh_legal::{fitting_tables_begin_wards, lone_pages_are_legal, splits_keep_legal};
use exh_notice::{Entry, Kind};
use exh_page::{Page, Records};
use exh_prefix::{PageNo, Prefix};
use exh_stores::{Pages, PlainPages};
use exh_table::Table;
use exh_ward::{Ward, WardFault, first_page};
use std::alloc::Global;

/// Ward `number` of a file of 2^`ward_bits` wards, of pages of two records, as of a
/// file that was written: it has two empty pages, and its start table says that page 0 was split, which
/// was change `changes` at the ward's prefix, an odd number. `WardFault::Memory` where memory for
/// it was refused twice.
pub fn opened_ward<K: Keyer>(
    alloc: Global,
    keyer: K,
    ward_bits: u8,
    number: u8,
    changes: u32,
) -> Result<Ward<PlainPages, K>, WardFault>
    requires bits { ward_bits ≤ WARD_BITS_LIMIT }
    requires number { number < 2 ^ ward_bits }
    requires odd { changes % 2 ≡ 1 }
    ensures cap { IfOk result (λ ward. ward.cap ≡ 2) }
    ensures bits { IfOk result (λ ward. ward.ward_bits ≡ ward_bits) }
    ensures number { IfOk result (λ ward. ward.number ≡ number) }
    ensures keyer { IfOk result (λ ward. ward.keyer ≡ keyer) }
{
    again!(Err(WardFault::Memory) => opened_once(alloc, keyer, ward_bits, number, changes))
}

fn opened_once<K: Keyer>(
    alloc: Global,
    keyer: K,
    ward_bits: u8,
    number: u8,
    changes: u32,
) -> Result<Ward<PlainPages, K>, WardFault>
    requires bits { ward_bits ≤ WARD_BITS_LIMIT }
    requires number { number < 2 ^ ward_bits }
    requires odd { changes % 2 ≡ 1 }
    ensures cap { IfOk result (λ ward. ward.cap ≡ 2) }
    ensures bits { IfOk result (λ ward. ward.ward_bits ≡ ward_bits) }
    ensures number { IfOk result (λ ward. ward.number ≡ number) }
    ensures keyer { IfOk result (λ ward. ward.keyer ≡ keyer) }
{
    lone_pages_are_legal();
    splits_keep_legal();
    fitting_tables_begin_wards();
    let own = own_prefix(alloc, ward_bits, number);
    let store = two_pages(alloc, own)?;
    let mut table = Table::new(alloc);
    table.put_greater(own, last_entry(changes))?;
    Ward::from_pages(alloc, 2, ward_bits, number, store, table, keyer)
}

// The prefix of a ward.
fn own_prefix(alloc: Global, ward_bits: u8, number: u8) -> Prefix
    requires bits { ward_bits ≤ WARD_BITS_LIMIT }
    requires number { number < 2 ^ ward_bits }
    ensures { result ≡ ward_prefix ward_bits number }
{
    match first_page(alloc, ward_bits, number) {
        Page::Live { prefix, .. } => prefix,
        Page::Forward { .. } => unreachable!(),
    }
}

// The pages that a split leaves of an empty one.
fn two_pages(alloc: Global, own: Prefix) -> Result<PlainPages, WardFault>
    requires { length own < LIMIT }
    ensures { IfOk result (λ store. store ≡ halves own) }
{
    let mut store = PlainPages::new(alloc, empty_page(alloc, own, None))?;
    let left = empty_page(alloc, own.child(false).unwrap(), Some(1));
    let right = empty_page(alloc, own.child(true).unwrap(), None);
    store.grow_and_set(right, 0, left)?;
    Ok(store)
}

fn empty_page(alloc: Global, prefix: Prefix, right: Option<PageNo>) -> Page
    ensures { result ≡ Live prefix right [] }
{
    Page::Live {
        prefix,
        right,
        records: Records::new(alloc),
    }
}

fn last_entry(number: u32) -> Entry
    ensures { result ≡ entry_of_split number }
{
    Entry {
        number,
        kind: Kind::Split { right: 1 },
    }
}
