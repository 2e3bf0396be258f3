//! The blocks of a file, gone through one after the other.
ghost use Rattle.std.specs.Prelude.{◌≡◌, ◌<◌, ◌-◌, ◌^◌, ◌+◌, ◌≤◌, ℕ, IfOk, IsTrue, OnOk};
ghost use Rattle.exh_salvage.specs.Salvage.{IsNextSaved, IsSalvageOf, IsSavedBlock};

use crate::{ReadBlocks, Salvage, Saved, saved_of};
use exh_codec::BLOCK_LEN;
use std::alloc::{AllocError, Global};

/// Goes through the first blocks of a file, so many, and keeps the pairs of each that is the image of a live page, in the
/// order of the blocks, whatever the others are. It tries to read each block: one that can't be read is lost, and so is
/// one whose digest isn't that of its content. It takes memory for the pairs: an `AllocError` where that is refused.
pub fn salvage_of<B: ReadBlocks>(
    alloc: Global,
    blocks: &mut B,
    count: u32,
) -> Result<Salvage, AllocError>
    ensures { IfOk result (IsSalvageOf (B.failed blocks.new) (B.known blocks.old) count) }
{
    let mut salvage = Salvage::nothing(alloc);
    for place in 0..count {
        salvage_next(alloc, blocks, place, &mut salvage)?;
    }
    Ok(salvage)
}

// The same of the block at a place.
fn salvage_next<B: ReadBlocks>(
    alloc: Global,
    blocks: &mut B,
    place: u32,
    salvage: &mut Salvage,
) -> Result<(), AllocError>
    requires live { salvage.old.live ≤ place }
    requires lost { salvage.old.lost ≤ place }
    requires unread { salvage.old.unread ≤ place }
    requires place { place < 2 ^ 32 - 1 }
    ensures same_bytes { B.known blocks.new ≡ B.known blocks.old }
    ensures live { OnOk result (salvage.new.live ≤ place + 1) }
    ensures lost { OnOk result (salvage.new.lost ≤ place + 1) }
    ensures unread { OnOk result (salvage.new.unread ≤ place + 1) }
    ensures still { (other : ℕ) → IsTrue (B.failed blocks.old other) → IsTrue (B.failed blocks.new other) }
    ensures next { OnOk result (IsNextSaved (B.failed blocks.new) (B.known blocks.old) place salvage.old salvage.new) }
{
    let mut block = [0; BLOCK_LEN];
    match blocks.read(place, &mut block) {
        Ok(()) => keep(alloc, &block, place, salvage),
        Err(_) => {
            salvage.note_unread(place);
            Ok(())
        }
    }
}

// The same of a block that was read.
fn keep(
    alloc: Global,
    block: &[u8; BLOCK_LEN],
    place: u32,
    salvage: &mut Salvage,
) -> Result<(), AllocError>
    requires live { salvage.old.live < 2 ^ 32 - 1 }
    requires lost { salvage.old.lost < 2 ^ 32 - 1 }
    ensures live { salvage.new.live ≤ salvage.old.live + 1 }
    ensures lost { salvage.new.lost ≤ salvage.old.lost + 1 }
    ensures unread { salvage.new.unread ≡ salvage.old.unread }
    ensures saved { OnOk result (IsSavedBlock block.now place salvage.old salvage.new) }
{
    match saved_of(alloc, block)? {
        Saved::Page(page) => salvage.add(&page, place),
        Saved::Other => Ok(()),
        Saved::Lost => {
            salvage.note(place);
            Ok(())
        }
    }
}
