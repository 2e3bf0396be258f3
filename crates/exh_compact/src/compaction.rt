//! A page file at a path that is made anew of its pairs.
ghost use Rattle.std.specs.Prelude.{◌≡◌, ◌-◌, ◌^◌, min, IfErr};
ghost use Rattle.exhash.specs.Store.{IsOfSaving};
ghost use Rattle.exh_compact.specs.Compacted.{IsOfCompacting, pages_in};

use crate::{CompactOptions, Compacted, compact_map};
use exh_frames::FileStore;
use exh_keyer::AnyKeyer;
use exh_page::Key;
use exh_ward::Ward;
use exhash::{FileMap, HeldFile, Opened, StoreError};
use std::io;

/// What came of making a page file anew.
#[derive(Drop)]
pub enum CompactOutcome {
    /// The new file is in the place of the old one.
    Done(CompactCounts),
    /// So it is, but its folder isn't synchronized, for this cause: a power failure may take it back.
    Unsynchronized {
        counts: CompactCounts,
        cause: io::Error,
    },
    /// These keys, in the order of the pages, find no room in it. The file is as it was.
    Full(Vec<Key>),
}

/// How much was made anew.
#[derive(Clone, Copy, Debug, PartialEq, Eq)]
pub struct CompactCounts {
    /// How many pairs there are.
    pub records: u64,
    /// How many pages the file had, live and forwarding ones.
    pub pages_before: u64,
    /// How many it has.
    pub pages_after: u64,
}

/// Makes the page file of a path anew of its pairs, under the writers' lock, for which it waits so many seconds: of version
/// 3, in its own settings or in others, with as few pages as the pairs need. A change that another process didn't finish is
/// recovered before. It takes memory for the file's pages, for its pairs, and for the new pages.
///
/// `Settings`: those asked for are no file's. `Absent`: nothing is there, or an empty file. `Busy`: another process has the
/// lock. `AboveLimit`: the new file would be longer than the system lets it be. Others: nothing was changed, as they say.
pub fn compact(
    rt: &HostRuntime,
    path: &str,
    options: &CompactOptions,
    seconds: u64,
) -> Result<CompactOutcome, StoreError>
    ensures { IfErr result IsOfCompacting }
{
    let (file, opened) = HeldFile::open(rt, path, seconds)?;
    let settings = options.over(opened.settings());
    let pages_before = page_count(opened.wards());
    let mut map = FileMap::new(opened);
    match compact_map(rt.alloc(), &mut map, settings)? {
        Compacted::Wards { wards, records } => {
            let counts = CompactCounts {
                records: records as u64,
                pages_before,
                pages_after: page_count(wards.wards()),
            };
            replaced(rt, file, wards, counts)
        }
        Compacted::Full(keys) => Ok(CompactOutcome::Full(keys)),
    }
}

// Puts a new file of wards in the place of one, and answers these counts.
fn replaced(
    rt: &HostRuntime,
    file: HeldFile,
    wards: Opened<FileStore>,
    counts: CompactCounts,
) -> Result<CompactOutcome, StoreError>
    ensures { IfErr result IsOfSaving }
{
    match file.replace(rt, wards) {
        Ok(()) => Ok(CompactOutcome::Done(counts)),
        Err(StoreError::Unsynchronized(cause)) => {
            Ok(CompactOutcome::Unsynchronized { counts, cause })
        }
        Err(fault) => Err(fault),
    }
}

// How many pages wards have.
fn page_count(wards: &[Ward<FileStore, AnyKeyer>]) -> u64
    ensures { result ≡ min (pages_in wards.now) (2 ^ 64 - 1) }
{
    let mut count = 0u64;
    for ward in wards {
        count = count.saturating_add(u64::from(ward.page_count()));
    }
    count
}
