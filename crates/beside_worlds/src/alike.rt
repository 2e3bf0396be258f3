//! Wards that are alike.

use exh_fixtures::{Difference, Part, are_same, refused, same};
use exh_frames::Pages;
use exh_keyer::AnyKeyer;
use exh_ward::{Ward, WardFault};
use std::alloc::AllocError;

/// Two wards have the same pages, notices, table and journal.
pub(crate) fn are_alike<P: Pages + Drop, Q: Pages + Drop>(
    ward: &mut Ward<P, AnyKeyer>,
    other: &mut Ward<Q, AnyKeyer>,
) -> Result<(), Difference> {
    let has_same = has_same_pages(ward, other).map_err(not_read)?;
    let is_told = ward.notices_after(0) == other.notices_after(0)
        && ward.table().entries().eq(other.table().entries())
        && ward.journal().iter().eq(other.journal().iter());
    same(has_same && is_told, Part::Healed)
}

// What is left to say where a page should have been read.
fn not_read(fault: WardFault) -> Difference {
    match fault {
        WardFault::Memory => Difference::Memory(AllocError),
        fault => refused(fault),
    }
}

fn has_same_pages<P: Pages + Drop, Q: Pages + Drop>(
    ward: &mut Ward<P, AnyKeyer>,
    other: &mut Ward<Q, AnyKeyer>,
) -> Result<bool, WardFault> {
    if ward.page_count() != other.page_count() {
        return Ok(false);
    }
    for number in 0..ward.page_count() {
        let (page, its_page) = (ward.page(number)?, other.page(number)?);
        if !are_same(&page, &its_page) {
            return Ok(false);
        }
    }
    Ok(true)
}
