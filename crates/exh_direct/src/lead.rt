ghost use Rattle.std.specs.Prelude.{◌≡◌};
ghost use Rattle.exh_direct.specs.Way.{lead_of, lead_right};

use exh_page::Page;
use exh_prefix::PageNo;

/// Where a page leads a request for a pseudokey.
#[derive(Clone, Copy)]
pub(crate) enum Lead {
    /// It is the page of the pseudokey.
    Home,
    /// To another page of the ward.
    To(PageNo),
    /// To none.
    Nowhere,
}

/// Where a page leads a request: to the target of a forwarding page, to the right of a live page that doesn't begin the
/// pseudokey, and from one that lies beyond it nowhere.
pub(crate) fn lead_of(page: &Page, pseudokey: u64) -> Lead
    ensures { result ≡ lead_of page.now pseudokey }
{
    if page.low() > pseudokey {
        return Lead::Nowhere;
    }
    match page {
        Page::Live { prefix, right, .. } => {
            if prefix.begins(pseudokey) {
                Lead::Home
            } else {
                lead_right(*right)
            }
        }
        Page::Forward { target, .. } => Lead::To(*target),
    }
}

fn lead_right(right: Option<PageNo>) -> Lead
    ensures { result ≡ lead_right right }
{
    match right {
        Some(right) => Lead::To(right),
        None => Lead::Nowhere,
    }
}
