ghost use Rattle.std.specs.Prelude.{◌≡◌, ◌+◌, ◌<◌, ◌^◌, ◌++◌, ◌↔◌, length, None, IfOk, IfErr, OnOk, IsErrOf, IsTrue, IsFalse};
ghost use Rattle.exh_prefix.specs.Layout.{layout};
ghost use Rattle.exh_format.specs.PageFile.{table_blocks};
ghost use Rattle.exh_format.specs.Reading.{FailsInTable, GivesEntries, IsOf, blocks_failed, last_prefix, left};

use crate::block_source::BlockSource;
use crate::{BLOCK_ENTRIES, FileEntry, ReadFileFault};
use exh_prefix::{Prefix, Version};
use std::alloc::{AllocError, Global};
use std::io::Read;

// The table, of so many entries. It takes memory for the entries that were read, not for those that are still to come.
pub(crate) fn read_table<R: Read>(
    alloc: Global,
    blocks: &mut BlockSource<'_, R>,
    version: Version,
    count: usize,
) -> Result<Vec<FileEntry>, ReadFileFault>
    requires place { blocks.old.place + table_blocks count < 2 ^ 32 }
    requires few { count < 2 ^ 32 }
    requires open { IsFalse (blocks_failed blocks.old) }
    ensures count { IfOk result (λ entries. length entries.items ≡ count) }
    ensures given { IfOk result (λ entries.
        GivesEntries (layout version) (left R.remaining blocks.old) (left R.remaining blocks.new) (table_blocks count) entries.items) }
    ensures err { IfErr result (IsOf (FailsInTable (layout version) blocks.old.place count) (left R.remaining blocks.old)) }
    ensures failed { IsErrOf result ReadFileFault.Read ↔ IsTrue (blocks_failed blocks.new) }
{
    let mut entries = Vec::new(alloc);
    for number in 0..(count + (BLOCK_ENTRIES - 1)) / BLOCK_ENTRIES {
        let more = BLOCK_ENTRIES.min(count - BLOCK_ENTRIES * number);
        let before = last_prefix(&entries);
        let next = blocks.read_entries(alloc, version, more, before)?;
        append(&mut entries, &next)?;
    }
    Ok(entries)
}

// The prefix of the last entry, if there is one.
fn last_prefix(entries: &[FileEntry]) -> Option<Prefix>
    ensures { result ≡ last_prefix None entries.now }
{
    if entries.is_empty() {
        return None;
    }
    Some(entries[entries.len() - 1].prefix)
}

// Puts entries behind the others.
fn append(entries: &mut Vec<FileEntry>, more: &[FileEntry]) -> Result<(), AllocError>
    ensures { OnOk result (entries.new.items ≡ entries.old.items ++ more.now) }
{
    for item in more {
        entries.push(*item)?;
    }
    Ok(())
}
