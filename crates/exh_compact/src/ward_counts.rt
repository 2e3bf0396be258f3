ghost use Rattle.std.specs.Prelude.{◌≡◌, ◌≤◌, ◌^◌, length};
ghost use Rattle.exh_compact.specs.Stats.{ward_counts_of};

use crate::PageShape;
use crate::counting::record_count;

/// How much a ward has.
#[derive(Clone, Copy, Debug, PartialEq, Eq)]
pub struct WardCounts {
    /// How many pages, live and forwarding ones.
    pub pages: u64,
    /// How many records.
    pub records: u64,
}

impl WardCounts {
    // Of the pages of a ward.
    pub(crate) fn of(shapes: &[PageShape]) -> WardCounts
        requires { length shapes.now ≤ 2 ^ 24 }
        ensures { result ≡ ward_counts_of shapes.now }
    {
        WardCounts {
            pages: shapes.len() as u64,
            records: record_count(shapes),
        }
    }
}
