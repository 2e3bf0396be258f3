ghost use Rattle.std.specs.Prelude.{◌≡◌, ◌↔◌, ℕ, ◌+◌, ◌-◌, ◌≤◌, ◌<◌, ◌^◌, IsTrue, length};
ghost use Rattle.exh_prefix.specs.declared.prefix.TheConstants.{LIMIT};
ghost use Rattle.exh_page.specs.declared.page.Page.{Page};
ghost use Rattle.exh_legal.specs.Pages.{IsAt};
ghost use Rattle.exh_legal.specs.LegalParts.{IsBounded};
ghost use Rattle.exh_legal.specs.BuiltIndex.{AreIndex, end_of};
ghost use Rattle.exh_legal.specs.Reasons.{HasLows, HasLeaves};

use crate::built_index::BuiltIndex;
use exh_page::{PageHead, PageList};
use exh_prefix::Prefix;

/// Whether each pseudokey of a ward is begun by exactly one live prefix, and none of these is shorter
/// than the ward's: in the order of low bounds each live page begins where the one before it ends. It
/// takes no memory.
pub(crate) fn has_leaves<P: PageList>(ward: Prefix, pages: &P, index: &BuiltIndex) -> bool
    requires lows { HasLows ward (P.pages pages.now) }
    requires index { AreIndex index.now.entries (P.pages pages.now) }
    requires bounded { (number : ℕ) (page : Page) → IsAt (P.pages pages.now) number page → IsBounded page }
    ensures { IsTrue result ↔ HasLeaves ward (P.pages pages.now) }
{
    let least = ward.len();
    let mut end = u128::from(ward.low());
    for (_, number) in index.iter() {
        if let PageHead::Live { prefix, .. } = pages.head(*number) {
            if prefix.len() < least || u128::from(prefix.low()) != end {
                return false;
            }
            end = prefix_end(prefix);
        }
    }
    end == prefix_end(ward)
}

/// The least number above the pseudokeys that a prefix begins.
pub(crate) fn prefix_end(prefix: Prefix) -> u128
    ensures { result ≡ end_of prefix }
{
    u128::from(prefix.low()) + (1 << (64 - prefix.len()))
}
