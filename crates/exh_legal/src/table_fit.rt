ghost use Rattle.std.specs.Prelude.{◌≡◌, ◌↔◌, ℕ, ◌<◌, ◌%◌, ◌++◌, ◌∷◌, [], true, Bool, List, IsTrue, MatchOption, Some, length};
ghost use Rattle.std.specs.FinMap as map;
ghost use Rattle.exh_prefix.specs.Prefix.{IsFront, low_of};
ghost use Rattle.exh_prefix.specs.declared.prefix.TheConstants.{LIMIT};
ghost use Rattle.exh_table.specs.declared.Entry.{Entry};
ghost use Rattle.exh_page.specs.declared.page.Page.{Page};
ghost use Rattle.exh_legal.specs.Fit.{FitsPages, IsWardEntry, parity_of};
ghost use Rattle.exh_legal.specs.Pages.{IsAt};
ghost use Rattle.exh_legal.specs.LegalParts.{IsBounded};
ghost use Rattle.exh_legal.specs.BuiltIndex.{AreIndex, EachOf, IsOwnEntry, IsRecordedBy, IsToldBy};
ghost use Rattle.exh_legal.specs.Reasons.{HasLows, HasLeaves};

use crate::built_index::{BuiltIndex, low_bound_of};
use exh_page::{PageHead, PageList};
use exh_prefix::{LIMIT, Prefix};
use exh_table::{Entry, Kind, Table};

/// Whether a table fits the pages of a ward, whose leaves are legal: each entry is the one that the
/// page of its right child's low bound calls for, and each page but the first has its entry. It takes
/// no memory.
pub(crate) fn fits_pages<P: PageList>(
    ward: Prefix,
    table: &Table,
    pages: &P,
    index: &BuiltIndex,
) -> bool
    requires lows { HasLows ward (P.pages pages.now) }
    requires leaves { HasLeaves ward (P.pages pages.now) }
    requires index { AreIndex index.now.entries (P.pages pages.now) }
    requires bounded { (number : ℕ) (page : Page) → IsAt (P.pages pages.now) number page → IsBounded page }
    ensures { IsTrue result ↔ FitsPages ward table.now (P.pages pages.now) }
{
    // A prefix has at most `LIMIT` bits.
    let _bits = ward.len();
    if !has_own_entries(ward, table, pages, index) {
        return false;
    }
    has_all_entries(table, pages)
}

// Whether each entry is one that a page calls for.
fn has_own_entries<P: PageList>(ward: Prefix, table: &Table, pages: &P, index: &BuiltIndex) -> bool
    requires { AreIndex index.now.entries (P.pages pages.now) }
    ensures { IsTrue result ↔ ((prefix : List Bool) (entry : Entry) → map.get table.now prefix ≡ Some entry → IsOwnEntry ward (P.pages pages.now) prefix entry) }
{
    for (prefix, entry) in table.entries() {
        if !is_own_entry(ward, *prefix, *entry, pages, index) {
            return false;
        }
    }
    true
}

// Whether an entry is the one that the page of its right child's low bound calls for.
fn is_own_entry<P: PageList>(
    ward: Prefix,
    prefix: Prefix,
    entry: Entry,
    pages: &P,
    index: &BuiltIndex,
) -> bool
    requires { AreIndex index.now.entries (P.pages pages.now) }
    ensures { IsTrue result ↔ IsOwnEntry ward (P.pages pages.now) prefix entry }
{
    if !is_ward_entry(ward, prefix, entry) {
        return false;
    }
    let Some(child) = prefix.child(true) else {
        return false;
    };
    let Some(number) = index.get(&child.low()).copied() else {
        return false;
    };
    is_told_by(entry.kind, number, pages.head(number))
}

// Whether an entry's prefix is the ward's, and its number from 1 on tells its kind.
fn is_ward_entry(ward: Prefix, prefix: Prefix, entry: Entry) -> bool
    ensures { IsTrue result ↔ IsWardEntry ward prefix entry }
{
    is_front(ward, prefix) && entry.number > 0 && has_parity(entry)
}

// Whether a prefix is the front of another.
fn is_front(front: Prefix, prefix: Prefix) -> bool
    ensures { IsTrue result ↔ IsFront front prefix }
{
    front.len() <= prefix.len() && front.begins(prefix.low())
}

// Whether the number is odd exactly for a split.
fn has_parity(entry: Entry) -> bool
    ensures { IsTrue result ↔ (entry.number % 2 ≡ parity_of entry.kind) }
{
    match entry.kind {
        Kind::Split { .. } => entry.number % 2 == 1,
        Kind::Merge => entry.number % 2 == 0,
    }
}

// Whether a split names a page with this head, which is live, or a merge stands where one forwards.
fn is_told_by(kind: Kind, number: usize, page: PageHead) -> bool
    ensures { EachOf page (λ page. IsTrue result ↔ IsToldBy kind number page) }
{
    match (kind, page) {
        (Kind::Split { right }, PageHead::Live { .. }) => right as usize == number,
        (Kind::Merge, PageHead::Forward { .. }) => true,
        _ => false,
    }
}

// Whether each page but the first has an entry.
fn has_all_entries<P: PageList>(table: &Table, pages: &P) -> bool
    ensures { IsTrue result ↔ ((number : ℕ) (page : Page) → IsAt (P.pages pages.now) number page → 0 < number → IsRecordedBy table.now page) }
{
    for number in 1..pages.page_count() {
        if !is_recorded(table, pages.head(number)) {
            return false;
        }
    }
    true
}

// Whether the table has an entry where the low bound of a page with this head is the right child's.
fn is_recorded(table: &Table, page: PageHead) -> bool
    ensures { EachOf page (λ page. IsTrue result ↔ IsRecordedBy table.now page) }
{
    match parent_of(low_bound_of(page)) {
        Some(parent) => table.get(parent).is_some(),
        None => true,
    }
}

// The prefix whose right child has this low bound, if there is one.
fn parent_of(low: u64) -> Option<Prefix>
    ensures { MatchOption result ((parent : List Bool) → length parent < LIMIT → low_of (parent ++ true ∷ []) ≡ low → ⊥) (λ parent. (length parent < LIMIT) × (low_of (parent ++ true ∷ []) ≡ low)) }
{
    let mut prefix = Prefix::new(LIMIT, low)?;
    for _bit in 0..LIMIT {
        let parent = prefix.parent()?;
        if prefix.is_right_child() {
            return Some(parent);
        }
        prefix = parent;
    }
    None
}
