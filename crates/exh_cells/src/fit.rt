ghost use Rattle.std.specs.Prelude.{◌≡◌, ◌≢◌, ◌<◌, ◌≤◌, ◌^◌, ◌↔◌, ℕ, length, slice_get, Some, IsTrue};
ghost use Rattle.exh_prefix.specs.declared.prefix.TheConstants.{LIMIT, WARD_BITS_LIMIT};
ghost use Rattle.exh_prefix.specs.Leading.{ward_of};
ghost use Rattle.exh_cells.specs.declared.cell.Slot.{Slot as SlotValue};
ghost use Rattle.exh_cells.specs.declared.fit.TheConstants.{COUNTS_LEN};
ghost use Rattle.exh_cells.specs.Fit.{FitsCells, FitsSlot, FitsSlots};

use crate::cell::{Cell, SLOTS, Slot};
use exh_prefix::{Prefix, ward_number};

/// For how many wards pages are counted.
pub const COUNTS_LEN: usize = 16;

/// Whether cells fit pages that have these low bounds, in the order of their places, and so many of which are each
/// ward's: the first pages are those of the wards, in their order; the counts are those of the pages; each cell has the
/// number of its page in its ward; and each slot with an entry is at a prefix that has the page's low bound, and names
/// the page of the low bound of the prefix's right child. It takes no memory.
pub fn cells_fit(ward_bits: u8, counts: &[u32; COUNTS_LEN], lows: &[u64], cells: &[Cell]) -> bool
    requires bits { ward_bits ≤ WARD_BITS_LIMIT }
    requires few { length lows.now < 2 ^ 32 }
    requires all { length cells.now ≡ length lows.now }
    ensures { IsTrue result ↔ FitsCells ward_bits counts.now lows.now cells.now }
{
    let mut found = [0; COUNTS_LEN];
    for place in 0..lows.len() {
        let ward = ward_at(ward_bits, lows[place]);
        if !is_in_order(ward_bits, place, ward) {
            return false;
        }
        if !cell_fits(lows, lows[place], found[ward], &cells[place]) {
            return false;
        }
        found[ward] += 1;
    }
    are_same(&found, counts)
}

// The ward of a page of a low bound.
pub(crate) fn ward_at(ward_bits: u8, low: u64) -> usize
    requires { ward_bits ≤ WARD_BITS_LIMIT }
    ensures ward { result ≡ ward_of ward_bits low }
    ensures within { result < 2 ^ ward_bits }
    ensures few { result < COUNTS_LEN }
{
    usize::from(ward_number(ward_bits, low))
}

// Whether counts are the same.
fn are_same(one: &[u32; COUNTS_LEN], other: &[u32; COUNTS_LEN]) -> bool
    ensures { IsTrue result ↔ (one.now ≡ other.now) }
{
    *one == *other
}

// How many wards there are.
pub(crate) fn ward_count(ward_bits: u8) -> usize
    requires { ward_bits ≤ WARD_BITS_LIMIT }
    ensures { result ≡ 2 ^ ward_bits }
{
    1 << ward_bits
}

// Whether a page at a place, one of a ward, may stand there: the first are those of the wards.
fn is_in_order(ward_bits: u8, place: usize, ward: usize) -> bool
    requires { ward_bits ≤ WARD_BITS_LIMIT }
    ensures { IsTrue result ↔ (place < 2 ^ ward_bits → ward ≡ place) }
{
    place >= ward_count(ward_bits) || ward == place
}

// Whether a cell has a number, and its slots fit a page of a low bound.
fn cell_fits(lows: &[u64], low: u64, number: u32, cell: &Cell) -> bool
    ensures { IsTrue result ↔ ((cell.now.number ≡ number) × FitsSlots lows.now low cell.now.slots) }
{
    cell.number == number && slots_fit(lows, low, &cell.slots)
}

// Whether the slots of a page of a low bound fit.
fn slots_fit(lows: &[u64], low: u64, slots: &[Slot; SLOTS]) -> bool
    ensures { IsTrue result ↔ FitsSlots lows.now low slots.now }
{
    for len in 0..SLOTS {
        if !may_stand(lows, low, len as u8, slots[len]) {
            return false;
        }
    }
    true
}

// Whether a slot of a length, if it has an entry, fits a page of a low bound.
fn may_stand(lows: &[u64], low: u64, len: u8, slot: Slot) -> bool
    requires { len < LIMIT }
    ensures { IsTrue result ↔ (slot.number ≢ 0 → FitsSlot lows.now low len slot.page) }
{
    slot.number == 0 || slot_fits(lows, low, len, slot.page)
}

// Whether a prefix of a length has a low bound, and the page at a place that of its right child.
fn slot_fits(lows: &[u64], low: u64, len: u8, page: u32) -> bool
    requires { len < LIMIT }
    ensures { IsTrue result ↔ FitsSlot lows.now low len page }
{
    let Some(prefix) = Prefix::new(len, low) else {
        return false;
    };
    let Some(right) = prefix.child(true) else {
        return false;
    };
    match lows.get(page as usize) {
        Some(found) => *found == right.low(),
        None => false,
    }
}
