ghost use Rattle.std.specs.Prelude.{◌≡◌};

use exh_prefix::{PageNo, Prefix};

/// A page without its records.
#[derive(Clone, Copy, Debug, PartialEq, Eq)]
pub enum PageHead {
    /// Of a live page: its prefix, its right link, and how many records it has.
    Live {
        prefix: Prefix,
        right: Option<PageNo>,
        count: usize,
    },
    /// Of a forwarding page: its low bound, and the page that it sends callers on to.
    Forward {
        low: u64,
        target: PageNo,
    },
}

impl PageHead {
    ghost use Rattle.std.specs.Prelude.{◌≡◌};
    ghost use Rattle.exh_page.specs.PageHead.{low_in};

    /// The low bound: the least pseudokey that the page is for.
    pub fn low(&self) -> u64
        ensures { result ≡ low_in self.now }
    {
        match self {
            PageHead::Live { prefix, .. } => prefix.low(),
            PageHead::Forward { low, .. } => *low,
        }
    }
}
