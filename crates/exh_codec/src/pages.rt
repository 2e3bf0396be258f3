ghost use Rattle.std.specs.Prelude.{◌≡◌, ◌≢◌, ◌^◌, ◌≤◌, ◌-◌, ◌↔◌, ℕ, List, length, map, Some, IsTrue, IfSome, IfNone, IfOk};
ghost use Rattle.std.specs.List.{AllByRecursion};
ghost use Rattle.exh_page.specs.Prefix.{Begins};
ghost use Rattle.exh_page.specs.Layout.{layout};
ghost use Rattle.exh_page.specs.Records.{IsRising};
ghost use Rattle.exh_page.specs.KeyMap.{pair_of};
ghost use Rattle.exh_codec.specs.Cells.{record_borrowed, IsSizedPair, pair_in};
ghost use Rattle.exh_codec.specs.Head.{link_number};
ghost use Rattle.exh_codec.specs.ImageTests.{record_of};
ghost use Rattle.exh_codec.specs.ReadPages.{GivesLive, GivesForward};

use crate::ImageFault;
use crate::borrowed_record::{BorrowedRecord, cmp_places, to_record};
use crate::cell::Cell;
use crate::head::{Head, NO_LINK};
use arrayvec::ArrayVec;
use exh_page::{CAP_LIMIT, Keyer, Page, PageNo, Prefix, Records, Version};
use std::alloc::{AllocError, Global};
use std::cmp::Ordering;

/// The live page of a head and its records in a version: `Prefix` where its prefix is none or doesn't begin a
/// record, else `Order` where records don't rise.
pub(crate) fn live_page<K: Keyer>(
    alloc: Global,
    version: Version,
    keyer: &K,
    head: Head,
    cells: &[Cell<'_>],
) -> Result<Page, ImageFault>
    requires few { length cells.now ≤ CAP_LIMIT }
    requires sized { AllByRecursion IsSizedPair (map pair_in cells.now) }
    ensures { GivesLive (layout version) (K.pseudokey_of keyer.now) head (map pair_in cells.now) result }
{
    let Some(prefix) = version.prefix(head.prefix_len, head.low) else {
        return Err(ImageFault::Prefix);
    };
    let Some(records) = begun_records(keyer, prefix, cells) else {
        return Err(ImageFault::Prefix);
    };
    if !are_rising(&records) {
        return Err(ImageFault::Order);
    }
    Ok(Page::Live {
        prefix,
        right: right_link(head.link),
        records: to_records(alloc, &records)?,
    })
}

/// The forwarding page of a head in a version: `Prefix` where its low bound is none.
pub(crate) fn forward_page(version: Version, head: Head) -> Result<Page, ImageFault>
    ensures { GivesForward (layout version) head result }
{
    if head.prefix_len != 0
        || head.low == 0
        || version.prefix(version.limit(), head.low).is_none()
    {
        return Err(ImageFault::Prefix);
    }
    Ok(Page::Forward {
        low: head.low,
        target: head.link,
    })
}

/// The right link of a head's number.
pub(crate) fn right_link(link: PageNo) -> Option<PageNo>
    ensures number { link_number result ≡ link }
    ensures other { result ≢ Some (2 ^ 32 - 1) }
{
    if link == NO_LINK { None } else { Some(link) }
}

// The records with their pseudokeys, `None` where a prefix doesn't begin one.
fn begun_records<'a, K: Keyer>(
    keyer: &K,
    prefix: Prefix,
    cells: &[Cell<'a>],
) -> Option<ArrayVec<BorrowedRecord<'a>, CAP_LIMIT>>
    requires { length cells.now ≤ CAP_LIMIT }
    ensures records { IfSome result (λ found. map record_borrowed found.items ≡ map (record_of (K.pseudokey_of keyer.now)) (map pair_in cells.now)) }
    ensures begun { IfSome result (λ _. AllByRecursion (λ pair. Begins prefix (K.pseudokey_of keyer.now pair.0)) (map pair_in cells.now)) }
    ensures none { IfNone result (AllByRecursion (λ pair. Begins prefix (K.pseudokey_of keyer.now pair.0)) (map pair_in cells.now) → ⊥) }
{
    let mut records = ArrayVec::new();
    for cell in cells {
        let pseudokey = keyer.pseudo(cell.key);
        if !prefix.begins(pseudokey) {
            return None;
        }
        records.push(BorrowedRecord {
            pseudokey,
            key: cell.key,
            value: cell.value,
        });
    }
    Some(records)
}

// Whether the records rise strictly, which is asked of neighbours.
fn are_rising(records: &[BorrowedRecord<'_>]) -> bool
    ensures { IsTrue result ↔ IsRising (map record_borrowed records.now) }
{
    for i in 1..records.len() {
        if cmp_places(&records[i - 1], &records[i]) != Ordering::Less {
            return false;
        }
    }
    true
}

// The records themselves, which rise.
fn to_records(alloc: Global, records: &[BorrowedRecord<'_>]) -> Result<Records, AllocError>
    requires sized { AllByRecursion IsSizedPair (map pair_of (map record_borrowed records.now)) }
    requires rising { IsRising (map record_borrowed records.now) }
    ensures { IfOk result (λ owned. owned ≡ map record_borrowed records.now) }
{
    let mut owned = Records::new(alloc);
    for item in records {
        owned.push(&to_record(item))?;
    }
    Ok(owned)
}
