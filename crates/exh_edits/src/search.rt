ghost use Rattle.std.specs.Prelude.{◌≡◌, ◌<◌, ◌≤◌, ◌*◌, ◌^◌, length, nat_eq, false, IfOk, IfErr, IfSome, IfNone};
ghost use Rattle.std.specs.List.{list_any, sum};
ghost use Rattle.exh_prefix.specs.declared.prefix.TheConstants.{LIMIT};
ghost use Rattle.exh_cells.specs.declared.places.TheConstants.{GROUP_PAGES};
ghost use Rattle.exh_cells.specs.Places.{group_in};
ghost use Rattle.exh_cells.specs.StampedHeader.{IsStampedHeader};
ghost use Rattle.exh_direct.specs.KnownBlocks.{IsCount};
ghost use Rattle.exh_edits.specs.WalkBlocks.{AreBlocksOf, FailsNext, HasGroup, IsTaken, groups_read, pages_in};
ghost use Rattle.exh_edits.specs.CellWalk.{TellsSlot};

use crate::reading::read_cells;
use crate::walk_block::WalkBlock;
use exh_cells::{GROUP_PAGES, Slot, StampedHeader, group_of, walk_block};
use exh_direct::{Blocks, DirectFault};
use exh_format::push_item;
use exh_table::Leaf;
use std::alloc::Global;

/// How many pages a file has, at most 2^20.
pub fn page_count(header: &StampedHeader) -> u32
    requires { IsStampedHeader header.now }
    ensures count { result ≡ pages_in header.now }
    ensures few { result ≤ 2 ^ 20 }
{
    total(&header.page_counts)
}

// The sum of counts.
fn total(counts: &[u32]) -> u32
    requires { sum counts.now < 2 ^ 32 }
    ensures { result ≡ sum counts.now }
{
    counts.iter().sum()
}

/// The slot of a leaf's length, in the cell of its page, which is told by its place in the file. A walk block that isn't
/// among those that were read is read, and then is.
pub(crate) fn slot_at<B: Blocks>(
    alloc: Global,
    blocks: &mut B,
    count: u64,
    header: &StampedHeader,
    read: &mut Vec<WalkBlock>,
    leaf: Leaf,
) -> Result<Slot, DirectFault>
    requires count { IsCount (B.known blocks.old) count }
    requires header { IsStampedHeader header.now }
    requires read { AreBlocksOf (B.known blocks.old) header.now read.old.items }
    requires there { leaf.page < pages_in header.now }
    requires short { length leaf.prefix < LIMIT }
    ensures same_bytes { B.known blocks.new ≡ B.known blocks.old }
    ensures taken { IfOk result (λ slot. IsTaken (B.known blocks.old) header.now (group_in leaf.page) (B.reads blocks.old) (B.reads blocks.new) read.old.items read.new.items) }
    ensures tells { IfOk result (TellsSlot read.new.items leaf) }
    ensures err { IfErr result (FailsNext (B.known blocks.old) header.now (group_in leaf.page) (B.reads blocks.old) (B.reads blocks.new) read.old.items) }
{
    let group = group_of(leaf.page);
    let index = block_at(alloc, blocks, count, header, read, group)?;
    let cell = &read[index].cells[(leaf.page % GROUP_PAGES) as usize];
    Ok(cell.slots[usize::from(leaf.prefix.len())])
}

// The index of the block of a group among those that were read, behind which it is put where it isn't there.
fn block_at<B: Blocks>(
    alloc: Global,
    blocks: &mut B,
    count: u64,
    header: &StampedHeader,
    read: &mut Vec<WalkBlock>,
    group: u32,
) -> Result<usize, DirectFault>
    requires count { IsCount (B.known blocks.old) count }
    requires header { IsStampedHeader header.now }
    requires read { AreBlocksOf (B.known blocks.old) header.now read.old.items }
    requires within { GROUP_PAGES * group < pages_in header.now }
    ensures same_bytes { B.known blocks.new ≡ B.known blocks.old }
    ensures taken { IfOk result (λ index. IsTaken (B.known blocks.old) header.now group (B.reads blocks.old) (B.reads blocks.new) read.old.items read.new.items) }
    ensures there { IfOk result (HasGroup read.new.items group) }
    ensures err { IfErr result (FailsNext (B.known blocks.old) header.now group (B.reads blocks.old) (B.reads blocks.new) read.old.items) }
{
    if let Some(index) = index_of(read, group) {
        return Ok(index);
    }
    let cells = GROUP_PAGES.min(page_count(header) - GROUP_PAGES * group);
    let place = walk_block(group);
    let cells = read_cells(alloc, blocks, count, place, cells as usize)?;
    let index = read.len();
    push_item(read, WalkBlock { group, cells })?;
    Ok(index)
}

// The index of the block of a group among some.
fn index_of(read: &[WalkBlock], group: u32) -> Option<usize>
    ensures some { IfSome result (HasGroup read.now group) }
    ensures none { IfNone result (list_any (nat_eq group) (groups_read read.now) ≡ false) }
{
    for index in 0..read.len() {
        if read[index].group == group {
            return Some(index);
        }
    }
    None
}
