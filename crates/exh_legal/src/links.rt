ghost use Rattle.std.specs.Prelude.{◌≡◌, ◌↔◌, ℕ, ◌<◌, ◌^◌, IsTrue, Some};
ghost use Rattle.exh_page.specs.declared.page.Page.{Page};
ghost use Rattle.exh_legal.specs.Pages.{IsAt};
ghost use Rattle.exh_legal.specs.LegalParts.{IsBounded};
ghost use Rattle.exh_legal.specs.BuiltIndex.{AreIndex, EachOf, IsAimedBy, IsLinkedBy, next_of, page_number_at};
ghost use Rattle.exh_legal.specs.Reasons.{HasLows, HasLeaves, HasLinks, HasTargets};

use crate::built_index::BuiltIndex;
use crate::leaves::prefix_end;
use exh_page::{PageHead, PageList};
use exh_prefix::Prefix;

/// Whether each right link of a ward, whose leaves are legal, is the live page with the next greater
/// low bound, or none where there is none. It takes no memory.
pub(crate) fn has_links<P: PageList>(ward: Prefix, pages: &P, index: &BuiltIndex) -> bool
    requires lows { HasLows ward (P.pages pages.now) }
    requires leaves { HasLeaves ward (P.pages pages.now) }
    requires index { AreIndex index.now.entries (P.pages pages.now) }
    requires bounded { (number : ℕ) (page : Page) → IsAt (P.pages pages.now) number page → IsBounded page }
    ensures { IsTrue result ↔ HasLinks (P.pages pages.now) }
{
    // A prefix has at most `LIMIT` bits.
    let _bits = ward.len();
    for number in 0..pages.page_count() {
        if !is_linked(pages.head(number), index) {
            return false;
        }
    }
    true
}

// Whether the right link of a page with this head is the page whose low bound is where its prefix ends.
fn is_linked(page: PageHead, index: &BuiltIndex) -> bool
    requires { (low number : ℕ) → page_number_at index.now.entries low ≡ Some number → low < 2 ^ 64 }
    ensures { EachOf page (λ page. IsTrue result ↔ IsLinkedBy index.now.entries page) }
{
    match page {
        PageHead::Live { prefix, right, .. } => {
            right.map(|right| right as usize) == next_page(prefix, index)
        }
        PageHead::Forward { .. } => true,
    }
}

// The page whose low bound is where a prefix ends.
fn next_page(prefix: Prefix, index: &BuiltIndex) -> Option<usize>
    requires { (low number : ℕ) → page_number_at index.now.entries low ≡ Some number → low < 2 ^ 64 }
    ensures { result ≡ next_of index.now.entries prefix }
{
    let end = u64::try_from(prefix_end(prefix)).ok()?;
    index.get(&end).copied()
}

/// Whether each forwarding page's target is the page whose low bound is its own with the lowest set
/// bit cleared. It takes no memory.
pub(crate) fn has_targets<P: PageList>(pages: &P, index: &BuiltIndex) -> bool
    requires { AreIndex index.now.entries (P.pages pages.now) }
    ensures { IsTrue result ↔ HasTargets (P.pages pages.now) }
{
    for number in 0..pages.page_count() {
        if !is_aimed(pages.head(number), index) {
            return false;
        }
    }
    true
}

// Whether the target of a forwarding page with this head is the page of its low bound with the lowest
// set bit cleared.
fn is_aimed(page: PageHead, index: &BuiltIndex) -> bool
    ensures { EachOf page (λ page. IsTrue result ↔ IsAimedBy index.now.entries page) }
{
    match page {
        PageHead::Live { .. } => true,
        PageHead::Forward { low, target } => {
            let low = Prefix::clear_lowest(low);
            index.get(&low).copied() == Some(target as usize)
        }
    }
}
