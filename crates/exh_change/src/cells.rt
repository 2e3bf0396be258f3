ghost use Rattle.std.specs.Prelude.{◌≡◌, ◌<◌, ◌≤◌, ◌+◌, ◌-◌, ◌*◌, ◌^◌, ℕ, List, [], ◌∷◌, Some, length, min, vec_len, slice_get, slice_index, IfErr, IfOk, MatchResult, OnOk};
ghost use Rattle.std.specs.List.{AllByRecursion};
ghost use Rattle.exh_cells.specs.declared.places.TheConstants.{GROUP_PAGES};
ghost use Rattle.exh_cells.specs.declared.cell.TheConstants.{SLOTS};
ghost use Rattle.exh_cells.specs.PlacedFile.{PlacedFile};
ghost use Rattle.exh_cells.specs.WalkImage.{IsCell};
ghost use Rattle.exh_direct.specs.DirectLaws.{IsOtherFault};
ghost use Rattle.exh_direct.specs.KnownBlocks.{IsCount};
ghost use Rattle.exh_edits.specs.PlacedEdits.{group_cells, with_cell};
ghost use Rattle.exh_change.specs.PlacedSteps.{new_cell, slot_of, with_change};
ghost use Rattle.exh_change.specs.WalkBlocks.{pages_in};
ghost use Rattle.exh_cells.specs.Places.{group_in, walk_block_of};
ghost use Rattle.exh_change.specs.Changes.{EditsMore};
ghost use Rattle.exh_change.specs.Drafts.{IsOf, IsSound, OfEach};

use crate::draft::Draft;
use crate::page_count;
use crate::reading::read_edited;
use exh_cells::{Cell, GROUP_PAGES, SLOTS, Slot, decode_cells, group_of, walk_block};
use exh_codec::BLOCK_LEN;
use exh_direct::{Blocks, DirectFault};
use exh_edits::{put_block, walk_image};
use std::alloc::Global;

/// The cell of the page at a place of a draft. It takes memory for the cells of its walk block.
///
/// `File`: the walk block ends early or fails a test. `Read`: it couldn't be read. `Memory`: a growth was refused.
pub(crate) fn cell_at<B: Blocks>(
    alloc: Global,
    blocks: &mut B,
    draft: &Draft,
    place: u32,
) -> Result<Cell, DirectFault>
    requires count { IsCount (B.known blocks.old) draft.now.edits.first }
    requires sound { IsSound draft.now }
    requires place { place < pages_in draft.now.header }
    ensures same_bytes { B.known blocks.new ≡ B.known blocks.old }
    ensures valid { IfOk result IsCell }
    ensures legal { OfEach (B.known blocks.old) draft.now (λ base file. MatchResult result (λ cell. slice_get file.cells place ≡ Some cell) IsOtherFault) }
{
    let cells = cells_of(alloc, blocks, draft, group_of(place))?;
    Ok(cells[(place % GROUP_PAGES) as usize])
}

/// Gives the page at a place of a draft another cell.
pub(crate) fn put_cell<B: Blocks>(
    alloc: Global,
    blocks: &mut B,
    draft: &mut Draft,
    place: u32,
    cell: Cell,
) -> Result<(), DirectFault>
    requires count { IsCount (B.known blocks.old) draft.old.edits.first }
    requires sound { IsSound draft.old }
    requires place { place < pages_in draft.old.header }
    requires valid { IsCell cell }
    ensures same_bytes { B.known blocks.new ≡ B.known blocks.old }
    ensures header { draft.new.header ≡ draft.old.header }
    ensures first { draft.new.edits.first ≡ draft.old.edits.first }
    ensures sound { OnOk result (IsSound draft.new) }
    ensures more { OnOk result (EditsMore (walk_block_of (group_in place) ∷ []) draft.old draft.new) }
    ensures legal { OfEach (B.known blocks.old) draft.old (λ base file. MatchResult result (λ _. IsOf base draft.new (with_cell place cell file)) IsOtherFault) }
{
    exh_edits::cells_change();
    let group = group_of(place);
    let mut cells = cells_of(alloc, blocks, draft, group)?;
    cells[(place % GROUP_PAGES) as usize] = cell;
    put_block(&mut draft.edits, walk_block(group), &walk_image(&cells))?;
    Ok(())
}

/// The cell of a page of which no prefix has an entry.
pub(crate) fn new_cell(number: u32) -> Cell
    ensures is { result ≡ new_cell number }
    ensures valid { IsCell result }
{
    Cell {
        number,
        slots: [Slot { number: 0, page: 0 }; SLOTS],
    }
}

/// The cell with one change more at the prefix of a length, whose page is at a place.
pub(crate) fn with_change(cell: &Cell, len: usize, page: u32) -> Cell
    requires len { len < SLOTS }
    requires valid { IsCell cell.now }
    requires room { (slot_of cell.now len).number < 2 ^ 32 - 1 }
    ensures is { result ≡ with_change len page cell.now }
    ensures valid { IsCell result }
{
    let mut slots = cell.slots;
    slots[len] = Slot {
        number: cell.slots[len].number + 1,
        page,
    };
    Cell {
        number: cell.number,
        slots,
    }
}

/// The cells of a group of a draft: none where its first page would stand behind the last one.
pub(crate) fn cells_of<B: Blocks>(
    alloc: Global,
    blocks: &mut B,
    draft: &Draft,
    group: u32,
) -> Result<Vec<Cell>, DirectFault>
    requires count { IsCount (B.known blocks.old) draft.now.edits.first }
    requires sound { IsSound draft.now }
    requires group { GROUP_PAGES * group ≤ pages_in draft.now.header }
    ensures same_bytes { B.known blocks.new ≡ B.known blocks.old }
    ensures count { IfOk result (λ cells. vec_len cells ≡ min GROUP_PAGES (pages_in draft.now.header - GROUP_PAGES * group)) }
    ensures valid { IfOk result (λ cells. AllByRecursion IsCell cells.items) }
    ensures legal { OfEach (B.known blocks.old) draft.now (λ base file. MatchResult result (λ cells. cells.items ≡ group_cells group file.cells) IsOtherFault) }
{
    exh_edits::blocks_stand();
    let count = GROUP_PAGES.min(page_count(&draft.header) - GROUP_PAGES * group);
    if count == 0 {
        return Ok(Vec::new(alloc));
    }
    let at = walk_block(group);
    let mut block = [0; BLOCK_LEN];
    read_edited(blocks, draft, at, &mut block)?;
    match decode_cells(alloc, &block, count as usize) {
        Ok(cells) => Ok(cells),
        Err(fault) => Err(DirectFault::at_place(at, fault)),
    }
}
