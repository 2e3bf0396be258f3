ghost use Rattle.std.specs.Prelude.{◌≡◌, IsTrue, OnOk};
ghost use Rattle.std.specs.FinMap as map;
ghost use Rattle.exh_table.specs.Table.{raised};
ghost use Rattle.exh_table.specs.TableOrder.{table_join};

use exh_join::Join;
use exh_notice::Entry;
use exh_prefix::Prefix;
use exh_table::Table;
use std::alloc::AllocError;

/// Whether a table has no entry. It takes no memory.
pub(crate) fn is_empty(table: &Table) -> bool
    ensures { IsTrue result → table.now ≡ map.empty }
{
    table.entries().next().is_none()
}

/// Adds to a table what another has beyond a copy's own. An `AllocError` where memory is refused, and then some of it
/// may be added.
pub(crate) fn add_news(news: &mut Table, own: &Table, other: &Table) -> Result<(), AllocError>
    ensures { OnOk result (table_join own.now news.new ≡ table_join (table_join own.now news.old) other.now) }
{
    for (prefix, entry) in other.entries() {
        if !is_told(own, *prefix, entry) {
            news.put_greater(*prefix, *entry)?;
        }
    }
    Ok(())
}

/// Whether a table has an entry at a prefix that is at least the given one. It takes no memory.
pub(crate) fn is_told(table: &Table, prefix: Prefix, entry: &Entry) -> bool
    ensures { IsTrue result → raised table.now prefix entry.now ≡ table.now }
{
    match table.get(prefix) {
        Some(stood) => entry.at_most(&stood),
        None => false,
    }
}
