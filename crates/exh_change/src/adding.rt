ghost use Rattle.std.specs.Prelude.{◌≡◌, ◌<◌, ◌≤◌, ◌*◌, List, ◌∷◌, ◌+◌, ◌-◌, ◌^◌, ℕ, length, slice_index, IfOk, IfErr, MatchResult, OnOk};
ghost use Rattle.exh_page.specs.Page.{IsWellFormed};
ghost use Rattle.exh_prefix.specs.Version.{second_version};
ghost use Rattle.exh_codec.specs.PageImage.{IsPage};
ghost use Rattle.exh_codec.specs.declared.block.TheConstants.{BLOCK_LEN};
ghost use Rattle.exh_format.specs.PageFile.{page_block as block_of_page};
ghost use Rattle.exh_cells.specs.declared.places.TheConstants.{GROUP_PAGES};
ghost use Rattle.exh_cells.specs.PlacedFile.{stamped_block, walk_block as block_of_cells};
ghost use Rattle.exh_cells.specs.Places.{end_block_of, group_in, page_block_of, walk_block_of};
ghost use Rattle.exh_edits.specs.BlockEdits.{with_block, with_edits};
ghost use Rattle.exh_edits.specs.EditsInTurn.{AreEdits};
ghost use Rattle.exh_cells.specs.declared.fit.TheConstants.{COUNTS_LEN};
ghost use Rattle.exh_cells.specs.StampedHeader.{IsStampedHeader};
ghost use Rattle.exh_direct.specs.DirectLaws.{IsOtherFault};
ghost use Rattle.exh_direct.specs.KnownBlocks.{IsCount};
ghost use Rattle.exh_edits.specs.PlacedEdits.{counted_more, with_more};
ghost use Rattle.exh_change.specs.PlacedSteps.{new_cell};
ghost use Rattle.exh_change.specs.WalkBlocks.{pages_in};
ghost use Rattle.exh_change.specs.Changes.{EditsMore, IsLater, blocks_at};
ghost use Rattle.exh_change.specs.Drafts.{IsOf, IsSound, OfEach, pseudo_in};

use crate::cells::{cells_of, new_cell};
use crate::draft::Draft;
use crate::page_count;
use exh_cells::{Cell, StampedHeader, group_of, page_block, walk_block};
use exh_direct::{Blocks, DirectFault};
use exh_edits::{header_image, page_image, put_block, walk_image};
use exh_format::push_item;
use exh_page::Page;
use exh_prefix::PageNo;
use std::alloc::{AllocError, Global};

/// Puts a page of a ward behind the others of a draft, whose number in the ward is how many it has; its cell has no entry.
///
/// `Astray`: the ward has no room for it. `File`, `Read`, `Memory`: the walk block of its group couldn't be read.
pub(crate) fn add_page<B: Blocks>(
    alloc: Global,
    blocks: &mut B,
    draft: &mut Draft,
    ward: usize,
    page: &Page,
) -> Result<(), DirectFault>
    requires count { IsCount (B.known blocks.old) draft.old.edits.first }
    requires sound { IsSound draft.old }
    requires ward { ward < COUNTS_LEN }
    requires formed { IsWellFormed (pseudo_in draft.old) page.now }
    ensures same_bytes { B.known blocks.new ≡ B.known blocks.old }
    ensures later { IsLater draft.old draft.new }
    ensures sound { OnOk result (IsSound draft.new) }
    ensures pages { OnOk result (pages_in draft.new.header ≡ pages_in draft.old.header + 1) }
    ensures more { OnOk result (EditsMore (0 ∷ blocks_at (pages_in draft.old.header)) draft.old draft.new) }
    ensures legal { IsStampedHeader (counted_more ward draft.old.header) → OfEach (B.known blocks.old) draft.old (λ base file. MatchResult result
        (λ _. IsOf base draft.new (with_more ward page.now (new_cell (slice_index draft.old.header.page_counts ward)) file)) IsOtherFault) }
{
    exh_edits::pages_are_added();
    let place = page_count(&draft.header);
    let number = draft.header.page_counts[ward];
    let header = counted_more(&draft.header, ward);
    if !header.is_in_range() {
        return Err(DirectFault::Astray);
    }
    let group = group_of(place);
    let mut cells = cells_of(alloc, blocks, draft, group)?;
    push_item(&mut cells, new_cell(number))?;
    put_three(draft, &header, &cells, place, page)?;
    draft.header = header;
    Ok(())
}

// The header with one page more of a ward.
fn counted_more(header: &StampedHeader, ward: usize) -> StampedHeader
    requires header { IsStampedHeader header.now }
    requires ward { ward < COUNTS_LEN }
    ensures { result ≡ counted_more ward header.now }
{
    let mut page_counts = header.page_counts;
    page_counts[ward] += 1;
    StampedHeader {
        settings: header.settings,
        page_counts,
        stamp: header.stamp,
        before: header.before,
    }
}

// Puts the blocks of a header, of the cells of the last group, and of the page behind the others.
fn put_three(
    draft: &mut Draft,
    header: &StampedHeader,
    cells: &[Cell],
    place: u32,
    page: &Page,
) -> Result<(), AllocError>
    requires sound { IsSound draft.old }
    requires header { IsStampedHeader header.now }
    requires cells { length cells.now ≤ GROUP_PAGES }
    requires place { place ≡ pages_in draft.old.header }
    requires formed { IsWellFormed (pseudo_in draft.old) page.now }
    ensures header { draft.new.header ≡ draft.old.header }
    ensures first { draft.new.edits.first ≡ draft.old.edits.first }
    ensures edits { AreEdits draft.new.edits.first draft.new.edits.items.items draft.new.edits.count }
    ensures count { OnOk result (draft.new.edits.count ≡ end_block_of (place + 1)) }
    ensures valid { OnOk result (IsPage second_version (pseudo_in draft.old) page.now) }
    ensures more { OnOk result (EditsMore (0 ∷ blocks_at place) draft.old draft.new) }
    ensures made { OnOk result ((base : List ℕ) → length base ≡ BLOCK_LEN * draft.old.edits.first
        → with_edits draft.new.edits.items.items base ≡ with_block (page_block_of place) (block_of_page page.now) (with_block (walk_block_of (group_in place)) (block_of_cells cells.now) (with_block 0 (stamped_block header.now) (with_edits draft.old.edits.items.items base)))) }
{
    let block = header_image(header);
    put_block(&mut draft.edits, 0, &block)?;
    let block = walk_image(cells);
    put_block(&mut draft.edits, walk_block(group_of(place)), &block)?;
    let block = page_image(draft.header.settings.keyer, page);
    put_block(&mut draft.edits, page_block(place), &block)
}
