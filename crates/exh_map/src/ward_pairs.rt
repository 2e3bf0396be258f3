//! The pairs of a ward, page by page, and how many they are.
ghost use Rattle.std.specs.Prelude.{◌≡◌, ◌++◌, OnErr, OnOk, map};
ghost use Rattle.exh_page.specs.KeyMap.{pair_of};
ghost use Rattle.exh_page.specs.Page.{records_of};
ghost use Rattle.exh_ward.specs.WardState.{IsSoundWard, IsUnchanged};
ghost use Rattle.exh_map.specs.Pairs.{pairs_of};

use exh_calls::PackedPairs;
use exh_keyer::Keyer;
use exh_page::{Page, Records};
use exh_stores::Pages;
use exh_ward::{Ward, WardFault};
use std::alloc::AllocError;

/// Puts the pairs of a ward behind others. It takes memory for them.
///
/// `Memory`: a growth was refused. `Page`: a page is out of reach.
pub(crate) fn push_ward<P: Pages + Drop, K: Keyer>(
    pairs: &mut PackedPairs,
    ward: &mut Ward<P, K>,
) -> Result<(), WardFault>
    ensures pairs { OnOk result (pairs.new ≡ pairs.old ++ pairs_of ward.old.pages) }
    ensures same { OnOk result (ward.new ≡ ward.old) }
    ensures err { OnErr result (IsUnchanged ward.old ward.new) }
    ensures sound { IsSoundWard K.pseudokey_of ward.old }
{
    see_sound(ward);
    'pages: for number in 0..ward.page_count() {
        let page = ward.page(number)?;
        push_page(pairs, &page)?;
    }
    Ok(())
}

// A ward is sound. This does nothing.
fn see_sound<P: Pages + Drop, K: Keyer>(ward: &Ward<P, K>)
    ensures { IsSoundWard K.pseudokey_of ward.now }
{
    let _table = ward.table();
}

// Puts the pairs of a page behind others.
fn push_page(pairs: &mut PackedPairs, page: &Page) -> Result<(), AllocError>
    ensures { OnOk result (pairs.new ≡ pairs.old ++ map pair_of (records_of page.now)) }
{
    match page {
        Page::Live { records, .. } => push_records(pairs, records),
        Page::Forward { .. } => Ok(()),
    }
}

// Puts the pairs of records behind others.
fn push_records(pairs: &mut PackedPairs, records: &Records) -> Result<(), AllocError>
    ensures { OnOk result (pairs.new ≡ pairs.old ++ map pair_of records.now) }
{
    for item in records.iter() {
        pairs.push(&item.key, &item.value)?;
    }
    Ok(())
}
