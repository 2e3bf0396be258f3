ghost use Rattle.std.specs.Prelude.{map};
ghost use Rattle.exh_table.specs.Table.{IsEntryOf, told_by};

use exh_notice::{Entry, Notice};
use exh_prefix::Prefix;

/// The greatest entry that the notices have at a prefix, or `None` where they have none there. The notices may stand in
/// any order and more than once. It takes no memory.
pub fn greatest_of(notices: &[Notice], prefix: Prefix) -> Option<Entry>
    ensures { IsEntryOf (map told_by notices.now) prefix result }
{
    let mut greatest = None;
    for notice in notices {
        if notice.prefix == prefix {
            greatest = greatest.max(Some(notice.entry()));
        }
    }
    greatest
}
