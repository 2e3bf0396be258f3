ghost use Rattle.std.specs.Prelude.{◌≡◌, ◌≢◌, ◌≤◌, ◌*◌, ◌↔◌, ℕ, List, [], length, drop, vec_len, IsTrue, IfOk, IfErr, MatchResult, OnOk};
ghost use Rattle.std.specs.List.{AllByRecursion, flat_map};
ghost use Rattle.exh_codec.specs.declared.block.TheConstants.{CONTENT_LEN};
ghost use Rattle.exh_codec.specs.Block.{sealed};
ghost use Rattle.exh_codec.specs.PageImage.{padded};
ghost use Rattle.exh_codec.specs.ImageTests.{IsFirst};
ghost use Rattle.exh_cells.specs.declared.cell.Cell.{Cell as CellValue};
ghost use Rattle.exh_cells.specs.declared.cell.TheConstants.{CELL_LEN};
ghost use Rattle.exh_cells.specs.declared.places.TheConstants.{GROUP_PAGES};
ghost use Rattle.exh_cells.specs.WalkImage.{AreCells, IsRead, IsTidy, IsTidySlot, IsWalkImage, cell_bytes};
ghost use Rattle.exh_cells.specs.WalkTests.{PassesWalk, walk_tests};

use crate::cell::{CELL_LEN, Cell, Slot};
use arrayvec::ArrayVec;
use exh_codec::{BLOCK_LEN, CONTENT_LEN, ImageFault, are_zero, is_sealed, seal};
use std::alloc::{AllocError, Global};

/// The walk block of the cells of a group, at most 24; it is one that a file may have where no slot without an entry has
/// a page. It takes no memory.
pub fn encode_cells(cells: &[Cell]) -> [u8; BLOCK_LEN]
    requires { length cells.now ≤ GROUP_PAGES }
    ensures bytes { result ≡ sealed (padded CONTENT_LEN (flat_map cell_bytes cells.now)) }
    ensures image { AllByRecursion IsTidy cells.now → IsWalkImage cells.now result }
{
    let mut bytes = ArrayVec::new();
    push_cells(&mut bytes, cells);
    let mut block = [0; BLOCK_LEN];
    block[..bytes.len()].copy_from_slice(bytes.as_slice());
    seal(&mut block);
    block
}

// Puts the bytes of cells one after the other.
fn push_cells(bytes: &mut ArrayVec<u8, CONTENT_LEN>, cells: &[Cell])
    requires none { bytes.old.items ≡ [] }
    requires few { length cells.now ≤ GROUP_PAGES }
    ensures bytes { bytes.new.items ≡ flat_map cell_bytes cells.now }
    ensures read { AllByRecursion IsRead cells.now }
{
    for cell in cells {
        cell.push_to(bytes);
    }
}

/// So many cells, at most 24, of which a block is the walk block. Where there are none, the fault is that of the first
/// test that the block fails: `Digest`, then `Padding` (a slot without an entry that has a page; a byte behind the
/// cells). It takes memory for the cells, once the digest is right: `Memory` where that is refused.
pub fn decode_cells(
    alloc: Global,
    block: &[u8; BLOCK_LEN],
    count: usize,
) -> Result<Vec<Cell>, ImageFault>
    requires { count ≤ GROUP_PAGES }
    ensures image { IfOk result (λ cells. IsWalkImage cells.items block.now) }
    ensures count { IfOk result (λ cells. vec_len cells ≡ count) }
    ensures every { (cells : List CellValue) → IsWalkImage cells block.now → length cells ≡ count
        → MatchResult result (λ found. found.items ≡ cells) (λ fault. fault ≡ ImageFault.Memory) }
    ensures fault { IfErr result (λ fault. fault ≢ ImageFault.Memory → IsFirst (PassesWalk count block.now) walk_tests fault) }
{
    if !is_sealed(block) {
        return Err(ImageFault::Digest);
    }
    let cells = cells_in(alloc, block, count)?;
    if !are_tidy(&cells) {
        return Err(ImageFault::Padding);
    }
    if !are_zero(&block[CELL_LEN * count..CONTENT_LEN]) {
        return Err(ImageFault::Padding);
    }
    Ok(cells)
}

// So many cells whose bytes stand one after the other.
fn cells_in(alloc: Global, bytes: &[u8], count: usize) -> Result<Vec<Cell>, AllocError>
    requires { CELL_LEN * count ≤ length bytes.now }
    ensures { IfOk result (λ cells. AreCells count bytes.now cells.items (drop (CELL_LEN * count) bytes.now)) }
{
    let mut cells = Vec::new(alloc);
    for number in 0..count {
        let start = CELL_LEN * number;
        let image = bytes[start..].first_chunk::<CELL_LEN>().unwrap();
        cells.push(Cell::from_bytes(image))?;
    }
    Ok(cells)
}

// Whether no slot without an entry has a page.
fn are_tidy(cells: &[Cell]) -> bool
    ensures { IsTrue result ↔ AllByRecursion IsTidy cells.now }
{
    for cell in cells {
        if !are_slots_tidy(&cell.slots) {
            return false;
        }
    }
    true
}

fn are_slots_tidy(slots: &[Slot]) -> bool
    ensures { IsTrue result ↔ AllByRecursion IsTidySlot slots.now }
{
    for slot in slots {
        if slot.number == 0 && slot.page != 0 {
            return false;
        }
    }
    true
}
