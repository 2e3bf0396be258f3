ghost use Rattle.std.specs.Prelude.{◌<◌, length};
ghost use Rattle.exh_direct.specs.TableSearch.{IsSide};

use exh_format::FileEntry;
use exh_prefix::Prefix;
use std::cmp::Ordering;

/// Where a prefix stands, seen from the entries of a block.
pub(crate) enum Side {
    /// Before all of them.
    Before,
    /// Behind all of them.
    Behind,
    /// Among them: the entry that stands at it, if there is one.
    Among(Option<FileEntry>),
}

/// Where a prefix stands, seen from some entries, of which there is at least one: neighbours are asked alone.
pub(crate) fn side_of(entries: &[FileEntry], prefix: Prefix) -> Side
    requires { 0 < length entries.now }
    ensures { IsSide entries.now prefix result }
{
    if entries[entries.len() - 1].prefix.cmp(&prefix) == Ordering::Less {
        return Side::Behind;
    }
    for at in 0..entries.len() {
        let item = entries[at];
        match item.prefix.cmp(&prefix) {
            Ordering::Less => {}
            Ordering::Equal => return Side::Among(Some(item)),
            Ordering::Greater if at == 0 => return Side::Before,
            Ordering::Greater => return Side::Among(None),
        }
    }
    Side::Behind
}
