//! Wards as of a file of keyer plain that was written before.
ghost use Rattle.std.specs.Prelude.{◌≡◌, ◌≤◌, ◌%◌, IfOk};
ghost use Rattle.exh_live.specs.LiveFile.{IsNewWardOf};

use exh_fakes::PlainWard;
use exh_fixtures::{Difference, Part, again, opened_ward, refused};
use exh_frames::PlainPages;
use exh_join::Join;
use exh_keyer::PlainKeyer;
use exh_legal::fitting_tables_begin_wards;
use exh_ward::{Ward, WardFault};
use std::alloc::Global;

/// A ward of two pages, whose start table says that the last change of the first one was change `changes`: a
/// split where that is odd, after which both are empty, and a merge where it is even.
pub(crate) fn written_ward(
    alloc: Global,
    keyer: PlainKeyer,
    changes: u32,
) -> Result<PlainWard, Difference>
    requires { 1 ≤ changes }
    ensures { IfOk result (IsNewWardOf 2 0 keyer 0) }
{
    let ward = if changes % 2 == 1 {
        opened_ward(alloc, keyer, 0, 0, changes)
    } else {
        again!(Err(WardFault::Memory) => merged_ward(alloc, keyer, changes))
    };
    let ward = ward.map_err(refused)?;
    if ward.journal().is_empty() {
        Ok(ward)
    } else {
        Err(Difference::Apart(Part::Journal))
    }
}

fn merged_ward(alloc: Global, keyer: PlainKeyer, changes: u32) -> Result<PlainWard, WardFault>
    requires even { changes % 2 ≡ 0 }
    requires some { 1 ≤ changes }
    ensures { IfOk result (IsNewWardOf 2 0 keyer 0) }
{
    let mut ward = opened_ward(alloc, keyer, 0, 0, changes - 1)?;
    ward.merge(0)?;
    reopened(alloc, keyer, &mut ward)
}

// The ward whose pages and whose table these are, with no change since.
fn reopened(alloc: Global, keyer: PlainKeyer, ward: &mut PlainWard) -> Result<PlainWard, WardFault>
    requires cap { ward.old.cap ≡ 2 }
    requires bits { ward.old.ward_bits ≡ 0 }
    requires number { ward.old.number ≡ 0 }
    requires keyer { ward.old.keyer ≡ keyer }
    ensures { IfOk result (IsNewWardOf 2 0 keyer 0) }
{
    fitting_tables_begin_wards();
    let mut pages = Vec::new(alloc);
    for number in 0..ward.page_count() {
        let page = ward.page(number)?;
        if pages.push(page).is_err() {
            return Err(WardFault::Memory);
        }
    }
    let table = ward.table().try_clone()?;
    let store = PlainPages::of_pages(alloc, pages)?;
    Ward::from_pages(alloc, 2, 0, 0, store, table, keyer)
}
