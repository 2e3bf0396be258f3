ghost use Rattle.std.specs.Prelude.{◌≡◌, ◌*◌, ◌<◌, ℕ, List, [], Some, IfErr, IfOk, MatchResult, OnOk};
ghost use Rattle.exh_table.specs.Table.{TableMap};
ghost use Rattle.exh_cells.specs.PlacedFile.{IsPlacedFile, PlacedFile};
ghost use Rattle.exh_direct.specs.DirectLaws.{IsOtherFault};
ghost use Rattle.exh_direct.specs.KnownBlocks.{IsCount};
ghost use Rattle.exh_edits.specs.BlockEdits.{with_edits};
ghost use Rattle.exh_edits.specs.EditLaws.{StandsAt};
ghost use Rattle.exh_change.specs.Drafts.{IsOf, IsSound, OverEach};

use crate::draft::Draft;
use crate::page_count;
use exh_cells::{StampedHeader, end_block};
use exh_codec::BLOCK_LEN;
use exh_direct::{Blocks, DirectFault, read_block};
use exh_edits::{block_in, blocks_stand, no_edits};
use exh_format::FileFault;
use std::alloc::Global;

/// The draft of a file that hasn't changed yet. It takes no memory.
///
/// `File`: the header's block fails a test; `Truncated` or `Trailing`: the file hasn't as many blocks as the header tells.
/// `Read`: the block couldn't be read.
pub(crate) fn read_draft<B: Blocks>(alloc: Global, blocks: &mut B) -> Result<Draft, DirectFault>
    ensures same_bytes { B.known blocks.new ≡ B.known blocks.old }
    ensures sound { IfOk result IsSound }
    ensures count { IfOk result (λ draft. IsCount (B.known blocks.old) draft.edits.first) }
    ensures none { IfOk result (λ draft. draft.edits.items.items ≡ []) }
    ensures legal { (base : List ℕ) (file : PlacedFile) → B.known blocks.old ≡ Some base → IsPlacedFile file base → MatchResult result (λ draft. IsOf base draft file) IsOtherFault }
{
    exh_cells::stamped_headers_pass();
    blocks_stand();
    let count = blocks.count();
    let mut block = [0; BLOCK_LEN];
    read_block(blocks, count, 0, &mut block)?;
    let header = StampedHeader::from_block(&block)?;
    let end = end_block(page_count(&header));
    if count < u64::from(end) {
        return Err(DirectFault::File(FileFault::Truncated));
    }
    if count > u64::from(end) {
        return Err(DirectFault::File(FileFault::Trailing));
    }
    Ok(Draft {
        header,
        edits: no_edits(alloc, end),
    })
}

/// Reads the block at a place of a draft. It takes no memory.
///
/// `File`: the block ends early. `Read`: it couldn't be read.
pub(crate) fn read_edited<B: Blocks>(
    blocks: &mut B,
    draft: &Draft,
    place: u32,
    block: &mut [u8; BLOCK_LEN],
) -> Result<(), DirectFault>
    requires count { IsCount (B.known blocks.old) draft.now.edits.first }
    requires sound { IsSound draft.now }
    requires place { place < draft.now.edits.count }
    ensures same_bytes { B.known blocks.new ≡ B.known blocks.old }
    ensures block { OnOk result (OverEach (B.known blocks.old) draft.now (λ base. StandsAt (with_edits draft.now.edits.items.items base) place block.new)) }
    ensures err { IfErr result (λ fault. OverEach (B.known blocks.old) draft.now (λ base. IsOtherFault fault)) }
{
    match block_in(&draft.edits, place) {
        Some(found) => {
            *block = found;
            Ok(())
        }
        None => read_block(blocks, u64::from(draft.edits.first), place, block),
    }
}
