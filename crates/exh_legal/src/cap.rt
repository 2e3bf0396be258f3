ghost use Rattle.std.specs.Prelude.{◌≤◌, ◌↔◌, IsTrue, length};
ghost use Rattle.exh_page.specs.Page.{records_of};
ghost use Rattle.exh_legal.specs.BuiltIndex.{EachOf};
ghost use Rattle.exh_legal.specs.Reasons.{KeepsCap};

use exh_page::{PageHead, PageList};

/// Whether no page has more than cap records. It takes no memory.
pub(crate) fn keeps_cap<P: PageList>(cap: usize, pages: &P) -> bool
    ensures { IsTrue result ↔ KeepsCap cap (P.pages pages.now) }
{
    for number in 0..pages.page_count() {
        if !holds_at_most(cap, pages.head(number)) {
            return false;
        }
    }
    true
}

// Whether a page with this head has at most so many records.
fn holds_at_most(cap: usize, page: PageHead) -> bool
    ensures { EachOf page (λ page. IsTrue result ↔ (length (records_of page) ≤ cap)) }
{
    match page {
        PageHead::Live { count, .. } => count <= cap,
        PageHead::Forward { .. } => true,
    }
}
