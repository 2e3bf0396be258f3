ghost use Rattle.std.specs.Prelude.{◌≡◌, ◌≤◌, [], ◌∷◌, vec_len, IfOk, OnOk, IfErr};
ghost use Rattle.std.specs.Io.KnownBytes.{Appends};
ghost use Rattle.exh_direct.specs.KnownBlocks.{BlockFails, IsCount, MayRead};
ghost use Rattle.exh_cells.specs.declared.places.TheConstants.{GROUP_PAGES};
ghost use Rattle.exh_edits.specs.WalkBlocks.{IsWalkBlock, WalkFails};

use exh_cells::{Cell, decode_cells};
use exh_codec::BLOCK_LEN;
use exh_direct::{Blocks, DirectFault, read_block};
use std::alloc::Global;

/// So many cells, of the walk block at a place.
pub(crate) fn read_cells<B: Blocks>(
    alloc: Global,
    blocks: &mut B,
    count: u64,
    place: u32,
    cells: usize,
) -> Result<Vec<Cell>, DirectFault>
    requires count { IsCount (B.known blocks.old) count }
    requires few { cells ≤ GROUP_PAGES }
    ensures same_bytes { B.known blocks.new ≡ B.known blocks.old }
    ensures may_read { MayRead (B.reads blocks.old) (B.reads blocks.new) place }
    ensures one_read { OnOk result (Appends (B.reads blocks.old) (B.reads blocks.new) (place ∷ [])) }
    ensures ok { IfOk result (λ found. IsWalkBlock (B.known blocks.old) place found.items) }
    ensures count { IfOk result (λ found. vec_len found ≡ cells) }
    ensures err { IfErr result (BlockFails (WalkFails cells place) (B.known blocks.old) place) }
{
    let mut block = [0; BLOCK_LEN];
    read_block(blocks, count, place, &mut block)?;
    match decode_cells(alloc, &block, cells) {
        Ok(found) => Ok(found),
        Err(fault) => Err(DirectFault::at_place(place, fault)),
    }
}
