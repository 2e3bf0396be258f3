ghost use Rattle.std.specs.Prelude.{◌≡◌, ◌↔◌, ℕ, ◌≤◌, ◌<◌, ◌^◌, IsTrue, IfOk, MatchOption, length};
ghost use Rattle.exh_prefix.specs.declared.prefix.TheConstants.{LIMIT};
ghost use Rattle.exh_legal.specs.Pages.{IsAt};
ghost use Rattle.exh_page.specs.Page.{IsLive, low_bound};
ghost use Rattle.exh_prefix.specs.Prefix.{low_of};
ghost use Rattle.exh_page.specs.declared.page.Page.{Page};
ghost use Rattle.exh_legal.specs.LegalParts.{IsBounded};
ghost use Rattle.exh_legal.specs.BuiltIndex.{AreIndex, EachOf};
ghost use Rattle.exh_legal.specs.Reasons.{HasLows};

use exh_page::{PageHead, PageList};
use exh_prefix::Prefix;
use std::alloc::{AllocError, Global};
use std::collections::BTreeMap;

/// The numbers of a ward's pages by their low bounds.
pub(crate) type BuiltIndex = BTreeMap<u64, usize>;

/// The index of a ward's pages: `None` where page 0 isn't live or hasn't the ward's low bound, a low
/// bound is outside the ward, or two pages share one. It takes memory for an entry a page: an
/// `AllocError` where that is refused.
pub(crate) fn build_index<P: PageList>(
    alloc: Global,
    ward: Prefix,
    pages: &P,
) -> Result<Option<BuiltIndex>, AllocError>
    ensures { IfOk result (λ found. MatchOption found (HasLows ward (P.pages pages.now) → ⊥) (λ index. HasLows ward (P.pages pages.now) × AreIndex index.entries (P.pages pages.now) × ((number : ℕ) (page : Page) → IsAt (P.pages pages.now) number page → IsBounded page))) }
{
    if !begins_ward(ward, pages) {
        return Ok(None);
    }
    let mut index = BTreeMap::new(alloc);
    for number in 0..pages.page_count() {
        let low = low_bound_of(pages.head(number));
        if !ward.begins(low) || index.contains_key(&low) {
            return Ok(None);
        }
        index.insert(low, number)?;
    }
    Ok(Some(index))
}

/// The low bound of a page with this head. Its prefix has at most `LIMIT` bits.
pub(crate) fn low_bound_of(page: PageHead) -> u64
    ensures low { EachOf page (λ page. result ≡ low_bound page) }
    ensures bounded { EachOf page IsBounded }
{
    match page {
        PageHead::Live { prefix, .. } => {
            let _bits = prefix.len();
            prefix.low()
        }
        PageHead::Forward { low, .. } => low,
    }
}

// Whether page 0 is live and has the ward's low bound.
fn begins_ward<P: PageList>(ward: Prefix, pages: &P) -> bool
    ensures { IsTrue result ↔ ((page : Page) × IsAt (P.pages pages.now) 0 page × IsLive page × (low_bound page ≡ low_of ward)) }
{
    if pages.page_count() == 0 {
        return false;
    }
    match pages.head(0) {
        PageHead::Live { prefix, .. } => prefix.low() == ward.low(),
        PageHead::Forward { .. } => false,
    }
}
