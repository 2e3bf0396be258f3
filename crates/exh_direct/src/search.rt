ghost use Rattle.std.specs.Prelude.{◌≡◌, ◌<◌, IfOk, IfErr, IfSome, IfNone, slice_get, false, Some};
ghost use Rattle.std.specs.List.{list_any};
ghost use Rattle.std.specs.Prelude.{nat_eq};
ghost use Rattle.exh_format.specs.FileVersion.{file_version};
ghost use Rattle.exh_format.specs.HeaderImage.{IsHeader};
ghost use Rattle.exh_format.specs.PageFile.{table_blocks};
ghost use Rattle.exh_direct.specs.KnownBlocks.{IsCount};
ghost use Rattle.exh_direct.specs.TableSearch.{AreBlocksOf, FailsNext, HasNumber, ReadsOn, SEARCH_READS, Tells, numbers_of};

use crate::reading::{read_entries, table_place};
use crate::side::{Side, side_of};
use crate::table_block::TableBlock;
use crate::{Blocks, DirectFault};
use exh_format::{BLOCK_ENTRIES, FileEntry, Header, push_item};
use exh_prefix::{Prefix, Version};
use std::alloc::Global;

/// What a table tells of a prefix: the entry that stands at it, `None` where none does. The table's blocks are sought
/// through by halves; each that isn't among those that were read is read, and then is.
pub(crate) fn entry_at<B: Blocks>(
    alloc: Global,
    blocks: &mut B,
    version: Version,
    count: u64,
    header: &Header,
    read: &mut Vec<TableBlock>,
    prefix: Prefix,
) -> Result<Option<FileEntry>, DirectFault>
    requires count { IsCount (B.known blocks.old) count }
    requires header { IsHeader (file_version version) header.now }
    requires read { AreBlocksOf (file_version version) (B.known blocks.old) header.now read.old.items }
    ensures same_bytes { B.known blocks.new ≡ B.known blocks.old }
    ensures reads { IfOk result (λ told. ReadsOn (file_version version) (B.known blocks.old) header.now (B.reads blocks.old) (B.reads blocks.new) read.old.items read.new.items SEARCH_READS) }
    ensures tells { IfOk result (Tells read.new.items header.now.entry_count prefix) }
    ensures err { IfErr result (FailsNext (file_version version) (B.known blocks.old) header.now (B.reads blocks.old) (B.reads blocks.new) read.old.items SEARCH_READS) }
{
    let mut low = 0;
    let mut high = (header.entry_count as usize + (BLOCK_ENTRIES - 1)) / BLOCK_ENTRIES;
    while low < high {
        let middle = low + (high - low) / 2;
        let index = block_at(alloc, blocks, version, count, header, read, middle)?;
        match side_of(&read[index].entries, prefix) {
            Side::Before => high = middle,
            Side::Behind => low = middle + 1,
            Side::Among(told) => return Ok(told),
        }
    }
    Ok(None)
}

// The index of the block of a number among those that were read, behind which it is put where it isn't there.
fn block_at<B: Blocks>(
    alloc: Global,
    blocks: &mut B,
    version: Version,
    count: u64,
    header: &Header,
    read: &mut Vec<TableBlock>,
    number: usize,
) -> Result<usize, DirectFault>
    requires count { IsCount (B.known blocks.old) count }
    requires header { IsHeader (file_version version) header.now }
    requires within { number < table_blocks header.now.entry_count }
    requires read { AreBlocksOf (file_version version) (B.known blocks.old) header.now read.old.items }
    ensures same_bytes { B.known blocks.new ≡ B.known blocks.old }
    ensures reads { IfOk result (λ index. ReadsOn (file_version version) (B.known blocks.old) header.now (B.reads blocks.old) (B.reads blocks.new) read.old.items read.new.items 1) }
    ensures there { IfOk result (HasNumber read.new.items number) }
    ensures err { IfErr result (FailsNext (file_version version) (B.known blocks.old) header.now (B.reads blocks.old) (B.reads blocks.new) read.old.items 1) }
{
    if let Some(index) = index_of(read, number) {
        return Ok(index);
    }
    let entries = read_entries(
        alloc,
        blocks,
        version,
        count,
        table_place(header) + number as u32,
        BLOCK_ENTRIES.min(header.entry_count as usize - BLOCK_ENTRIES * number),
        None,
    )?;
    let index = read.len();
    push_item(read, TableBlock { number, entries })?;
    Ok(index)
}

// The index of the block of a number among some.
fn index_of(read: &[TableBlock], number: usize) -> Option<usize>
    ensures some { IfSome result (HasNumber read.now number) }
    ensures none { IfNone result (list_any (nat_eq number) (numbers_of read.now) ≡ false) }
{
    for index in 0..read.len() {
        if read[index].number == number {
            return Some(index);
        }
    }
    None
}
