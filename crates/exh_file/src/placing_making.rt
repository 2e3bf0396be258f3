//! How wards are placed in a file of version 3.
ghost use Rattle.std.specs.Prelude.{◌≡◌, ◌≢◌, ◌<◌, ◌≤◌, ◌↔◌, ℕ, length, map, take, get_or, slice_get, slice_index, Some, IfErr, IfNone, IfOk, IfSome, IsTrue};
ghost use Rattle.exh_placing.specs.declared.page_at.PageAt.{PageAt as PageAtValue};
ghost use Rattle.exh_placing.specs.Order.{BeginsWithFirsts, IsNumbered, IsOrderOf, IsOrderOfLows, IsWithin, first_pages, with_others};
ghost use Rattle.exh_placing.specs.GroupSizes.{COUNTS_LEN};
ghost use Rattle.exh_prefix.specs.declared.prefix.TheConstants.{WARD_BITS_LIMIT};
ghost use Rattle.exh_placing.specs.PlacedFile.{lows_of};
ghost use Rattle.exh_file.specs.Opened.{AreWardsOf, in_file};
ghost use Rattle.exh_file.specs.Placing.{HavePages, IsGrownOrder, IsPlacedSo, IsWardOrder, ordered_pages};
ghost use Rattle.exh_file.specs.Saved.{AreSound, HasCountedOf, counts_in, pages_of_all};

use crate::SaveFault;
use crate::header::header_of;
use crate::placing::{Placing, Stamps};
use crate::ward_lows::lows_in;
use crate::ward_tables::WardTables;
use exh_keyer::AnyKeyer;
use exh_legal::{fitting_tables_begin_wards, pages_are_few};
use exh_page::FileSettings;
use exh_placing::{
    PageAt, cells_of_tables, first_order, grown_order, legal_wards_have_places, order_of_lows,
    orders_give_pages,
};
use exh_prefix::PageNo;
use exh_stores::Pages;
use exh_ward::Ward;
use std::alloc::{AllocError, Global};

/// The placing of wards in an order of their pages, with these stamps. `None` where the first pages in it haven't these
/// low bounds.
///
/// `Page`: a page is out of reach. `Memory`: a growth was refused.
pub(crate) fn placing_in<P: Pages + Drop>(
    alloc: Global,
    settings: FileSettings<AnyKeyer>,
    wards: &mut [Ward<P, AnyKeyer>],
    order: Vec<PageAt>,
    old: &[u64],
    stamps: Stamps,
) -> Result<Option<Placing>, SaveFault>
    requires wards { AreWardsOf (in_file settings wards.old) }
    requires sound { AreSound wards.old }
    requires order { IsWardOrder wards.old order.items }
    ensures placing { IfOk result (λ found. IfSome found (IsPlacedSo (in_file settings wards.old) order.items stamps)) }
    ensures begins { IfOk result (λ found. IfSome found (λ _. take (length old.now) (lows_of (ordered_pages wards.old order.items)) ≡ old.now)) }
    ensures none { IfOk result (λ found. IfNone found (take (length old.now) (lows_of (ordered_pages wards.old order.items)) ≢ old.now)) }
    ensures fault { IfErr result (λ fault. fault ≢ SaveFault.Write) }
    ensures counted { IfErr result (λ fault. fault ≡ SaveFault.Page → HasCountedOf P.failures wards.old) }
    ensures same { IfOk result (λ _. wards.new ≡ wards.old) }
{
    fitting_tables_begin_wards();
    pages_are_few();
    legal_wards_have_places();
    orders_give_pages();
    let lows = lows_in(alloc, wards, &order)?;
    if !begins_with(&lows, old) {
        return Ok(None);
    }
    let tables = WardTables { wards };
    let cells = cells_of_tables(alloc, settings.ward_bits, &lows, &tables)?;
    Ok(Some(Placing {
        order,
        cells,
        stamps,
    }))
}

// Whether the first of low bounds are these.
fn begins_with(lows: &[u64], old: &[u64]) -> bool
    ensures { IsTrue result ↔ take (length old.now) lows.now ≡ old.now }
{
    old.len() <= lows.len() && lows[..old.len()] == old[..]
}

/// The order of wards' pages that were never placed: the wards' pages 0, and behind them the others, ward by ward.
pub(crate) fn new_order<P: Pages + Drop>(
    alloc: Global,
    settings: FileSettings<AnyKeyer>,
    wards: &[Ward<P, AnyKeyer>],
) -> Result<Vec<PageAt>, AllocError>
    requires { AreWardsOf (in_file settings wards.now) }
    ensures order { IfOk result (λ order. IsWardOrder wards.now order.items) }
    ensures whole { IfOk result (λ order. order.items ≡ with_others (map length (pages_of_all wards.now)) (first_pages (length wards.now))) }
    ensures sound { AreSound wards.now }
{
    fitting_tables_begin_wards();
    pages_are_few();
    let header = header_of(settings, wards);
    first_order(alloc, &header.page_counts[..wards.len()])
}

/// The order of wards' pages of which some were placed in a file, whose pages had these low bounds: those in their
/// places, and behind them the others, ward by ward. `None` where they aren't pages of these wards.
pub(crate) fn order_grown<P: Pages + Drop>(
    alloc: Global,
    settings: FileSettings<AnyKeyer>,
    wards: &[Ward<P, AnyKeyer>],
    lows: &[u64],
) -> Result<Option<Vec<PageAt>>, AllocError>
    requires { AreWardsOf (in_file settings wards.now) }
    ensures order { IfOk result (λ found. IfSome found (λ order. IsWardOrder wards.now order.items)) }
    ensures grown { IfOk result (λ found. IfSome found (λ order. IsGrownOrder settings.ward_bits wards.now lows.now order.items)) }
    ensures none { IfOk result (λ found. IfNone found (¬ HavePages settings.ward_bits wards.now lows.now)) }
    ensures sound { AreSound wards.now }
{
    let header = header_of(settings, wards);
    let counts = &header.page_counts[..wards.len()];
    if lows.len() > u32::MAX as usize {
        return Ok(None);
    }
    let placed = order_of_lows(alloc, settings.ward_bits, lows)?;
    if !are_within(counts, &placed) || !begins_with_firsts(counts.len(), &placed) {
        return Ok(None);
    }
    Ok(Some(grown_order(alloc, &placed, counts)?))
}

// Whether each page of an order, whose pages are numbered, is one of wards that have so many.
fn are_within(counts: &[PageNo], order: &[PageAt]) -> bool
    requires { IsNumbered order.now }
    ensures { IsTrue result ↔ IsWithin counts.now order.now }
{
    for place in 0..order.len() {
        if !is_within(counts, order[place]) {
            return false;
        }
    }
    true
}

// Whether a page is one of wards that have so many.
fn is_within(counts: &[PageNo], page: PageAt) -> bool
    ensures { IsTrue result ↔ page.number < get_or counts.now page.ward 0 }
{
    match counts.get(page.ward as usize) {
        Some(count) => page.number < *count,
        None => false,
    }
}

// Whether the first places of an order are those of so many wards' pages 0.
fn begins_with_firsts(wards: usize, order: &[PageAt]) -> bool
    ensures { IsTrue result ↔ BeginsWithFirsts wards order.now }
{
    if order.len() < wards {
        return false;
    }
    for ward in 0..wards {
        if !is_first(order[ward], ward) {
            return false;
        }
    }
    true
}

// Whether a page is page 0 of a ward.
fn is_first(page: PageAt, ward: usize) -> bool
    ensures { IsTrue result ↔ page ≡ record { ward = ward; number = 0 } }
{
    page.ward as usize == ward && page.number == 0
}
