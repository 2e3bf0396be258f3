ghost use Rattle.std.specs.Prelude.{◌≡◌, ◌≤◌, ◌<◌, ◌^◌, ◌++◌, ℕ, length, slice_index, IfOk, OnOk};
ghost use Rattle.exh_prefix.specs.declared.prefix.TheConstants.{WARD_BITS_LIMIT};
ghost use Rattle.exh_cells.specs.declared.fit.TheConstants.{COUNTS_LEN};
ghost use Rattle.exh_cells.specs.Fit.{BeginWards};
ghost use Rattle.exh_placing.specs.Order.{BeginsWithFirsts, IsNumbered, IsOrderOf, IsOrderOfLows, IsWithin, first_pages, own_in, pages_between, with_others};

use crate::PageAt;
use crate::cells::ward_at;
use exh_cells::COUNTS_LEN;
use exh_prefix::PageNo;
use std::alloc::{AllocError, Global};

/// The order of pages that were never placed, of wards that have so many: the wards' pages 0, and behind them the others,
/// ward by ward. It takes memory for a few bytes a page: an `AllocError` where that is refused.
pub fn first_order(alloc: Global, counts: &[PageNo]) -> Result<Vec<PageAt>, AllocError>
    requires few { length counts.now ≤ COUNTS_LEN }
    requires some { (ward : ℕ) → ward < length counts.now → 1 ≤ slice_index counts.now ward }
    ensures order { IfOk result (λ order. IsOrderOf counts.now order.items) }
    ensures whole { IfOk result (λ order. order.items ≡ with_others counts.now (first_pages (length counts.now))) }
    ensures firsts { IfOk result (λ order. BeginsWithFirsts (length counts.now) order.items) }
{
    let firsts = pages_0(alloc, counts.len())?;
    grown_order(alloc, &firsts, counts)
}

/// The order of pages of which some were placed, of wards that have so many: those in their order, and behind them the
/// others, ward by ward. It takes memory for a few bytes a page: an `AllocError` where that is refused.
pub fn grown_order(
    alloc: Global,
    placed: &[PageAt],
    counts: &[PageNo],
) -> Result<Vec<PageAt>, AllocError>
    requires few { length counts.now ≤ COUNTS_LEN }
    requires short { length placed.now < 2 ^ 32 }
    requires numbered { IsNumbered placed.now }
    requires within { IsWithin counts.now placed.now }
    ensures order { IfOk result (λ order. IsOrderOf counts.now order.items) }
    ensures whole { IfOk result (λ order. order.items ≡ with_others counts.now placed.now) }
    ensures firsts { IfOk result (λ order. (wards : ℕ) → BeginsWithFirsts wards placed.now → BeginsWithFirsts wards order.items) }
{
    let olds = counts_of(placed);
    let mut order = Vec::from_slice(alloc, placed)?;
    for ward in 0..counts.len() {
        push_pages(&mut order, ward as u8, olds[ward], counts[ward])?;
    }
    Ok(order)
}

/// The order of pages that have these low bounds, in the order of their places: the ward of each, and how many of that
/// ward stand before it. It takes memory for a few bytes a page: an `AllocError` where that is refused.
pub fn order_of_lows(alloc: Global, ward_bits: u8, lows: &[u64]) -> Result<Vec<PageAt>, AllocError>
    requires bits { ward_bits ≤ WARD_BITS_LIMIT }
    requires few { length lows.now < 2 ^ 32 }
    ensures order { IfOk result (λ order. IsOrderOfLows ward_bits lows.now order.items) }
    ensures firsts { IfOk result (λ order. 2 ^ ward_bits ≤ length lows.now → BeginWards ward_bits lows.now → BeginsWithFirsts (2 ^ ward_bits) order.items) }
{
    let mut found = [0; COUNTS_LEN];
    let mut order = Vec::with_capacity(alloc, lows.len())?;
    for place in 0..lows.len() {
        let ward = ward_at(ward_bits, lows[place]);
        order.push(PageAt {
            ward: ward as u8,
            number: found[ward],
        })?;
        found[ward] += 1;
    }
    Ok(order)
}

// The first pages of so many wards.
fn pages_0(alloc: Global, wards: usize) -> Result<Vec<PageAt>, AllocError>
    requires { wards ≤ COUNTS_LEN }
    ensures { IfOk result (λ order. order.items ≡ first_pages wards) }
{
    let mut order = Vec::with_capacity(alloc, wards)?;
    for ward in 0..wards {
        order.push(PageAt {
            ward: ward as u8,
            number: 0,
        })?;
    }
    Ok(order)
}

// How many pages of an order are each ward's, of as many wards as a file may have.
fn counts_of(order: &[PageAt]) -> [PageNo; COUNTS_LEN]
    requires { length order.now < 2 ^ 32 }
    ensures count { length result ≡ COUNTS_LEN }
    ensures each { (ward : ℕ) → ward < COUNTS_LEN → slice_index result ward ≡ own_in order.now ward }
{
    let mut found = [0; COUNTS_LEN];
    for place in 0..order.len() {
        let ward = order[place].ward as usize;
        if ward < COUNTS_LEN {
            found[ward] += 1;
        }
    }
    found
}

// Puts the pages of a ward from a number on, to below another, behind others.
fn push_pages(order: &mut Vec<PageAt>, ward: u8, from: PageNo, to: PageNo) -> Result<(), AllocError>
    requires { from ≤ to }
    ensures { OnOk result (order.new.items ≡ order.old.items ++ pages_between ward from to) }
{
    for number in from..to {
        order.push(PageAt { ward, number })?;
    }
    Ok(())
}
