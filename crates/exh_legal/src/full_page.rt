ghost use Rattle.std.specs.Prelude.{IfErr, IfOk};
ghost use Rattle.exh_legal.specs.HalvedPrefix.{IsHalvable};
ghost use Rattle.exh_legal.specs.HalvesFault.{NotHalved};

use crate::HalvesFault;
use exh_page::PageHead;
use exh_prefix::{LIMIT, Prefix};

/// The prefix of a page that may be split: a live one that has at least `cap` records, and whose prefix
/// has children (Fagin et al. 1979). Refused in this order: `NotLive`, `NotFull`, `AtLimit`.
pub fn halved_prefix(page: PageHead, cap: usize) -> Result<Prefix, HalvesFault>
    ensures ok { IfOk result (IsHalvable cap page) }
    ensures err { IfErr result (NotHalved cap page) }
{
    match page {
        PageHead::Forward { .. } => Err(HalvesFault::NotLive),
        PageHead::Live { prefix, count, .. } => {
            if count < cap {
                return Err(HalvesFault::NotFull);
            }
            if prefix.len() >= LIMIT {
                return Err(HalvesFault::AtLimit);
            }
            Ok(prefix)
        }
    }
}
