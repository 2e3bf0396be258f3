ghost use Rattle.std.specs.Prelude.{◌≡◌, ◌<◌, IfOk, IfErr};
ghost use Rattle.exh_cells.specs.StampedHeader.{IsStampedHeader};
ghost use Rattle.exh_direct.specs.KnownBlocks.{IsCount};
ghost use Rattle.exh_edits.specs.PlacedAnswer.{FailsInWalk, NamesPlace};

use crate::search::{page_count, slot_at};
use crate::walk::{first_leaf, next_bit};
use exh_cells::StampedHeader;
use exh_direct::{Blocks, DirectFault};
use exh_prefix::LIMIT;
use std::alloc::Global;

/// The place of the page at which the walk for a pseudokey ends. It takes memory for the cells of the blocks that it reads.
pub(crate) fn named_place<B: Blocks>(
    alloc: Global,
    blocks: &mut B,
    count: u64,
    header: &StampedHeader,
    pseudokey: u64,
) -> Result<u32, DirectFault>
    requires count { IsCount (B.known blocks.old) count }
    requires header { IsStampedHeader header.now }
    ensures same_bytes { B.known blocks.new ≡ B.known blocks.old }
    ensures ok { IfOk result (NamesPlace (B.known blocks.old) header.now pseudokey (B.reads blocks.old) (B.reads blocks.new)) }
    ensures err { IfErr result (FailsInWalk (B.known blocks.old) header.now pseudokey (B.reads blocks.old) (B.reads blocks.new)) }
{
    let pages = page_count(header);
    let mut leaf = first_leaf(header.settings.ward_bits, pseudokey);
    let mut read = Vec::new(alloc);
    while leaf.prefix.len() < LIMIT {
        let slot = slot_at(alloc, blocks, count, header, &mut read, leaf)?;
        if slot.number % 2 == 0 {
            return Ok(leaf.page);
        }
        leaf = leaf.step(next_bit(leaf.prefix, pseudokey), slot.page);
        if leaf.page >= pages {
            return Err(DirectFault::Astray);
        }
    }
    Ok(leaf.page)
}
