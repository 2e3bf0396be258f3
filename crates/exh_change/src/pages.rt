ghost use Rattle.std.specs.Prelude.{◌≡◌, ◌<◌, ◌+◌, ◌^◌, ℕ, List, [], ◌∷◌, Some, length, max, slice_get, IfErr, IfOk, MatchResult, OnOk};
ghost use Rattle.exh_prefix.specs.Version.{second_version};
ghost use Rattle.exh_page.specs.declared.page.Page.{Page as PageValue};
ghost use Rattle.exh_page.specs.Page.{IsWellFormed};
ghost use Rattle.exh_codec.specs.PageImage.{IsPage};
ghost use Rattle.exh_cells.specs.PlacedFile.{PlacedFile};
ghost use Rattle.exh_direct.specs.DirectLaws.{IsOtherFault};
ghost use Rattle.exh_direct.specs.KnownBlocks.{IsCount};
ghost use Rattle.exh_edits.specs.PlacedEdits.{with_page};
ghost use Rattle.exh_change.specs.WalkBlocks.{pages_in};
ghost use Rattle.exh_cells.specs.Places.{page_block_of};
ghost use Rattle.exh_change.specs.Changes.{EditsMore};
ghost use Rattle.exh_change.specs.Drafts.{IsOf, IsSound, OfEach, pseudo_in};

use crate::draft::Draft;
use crate::reading::read_edited;
use exh_cells::page_block;
use exh_codec::{BLOCK_LEN, decode_page_of};
use exh_direct::{Blocks, DirectFault};
use exh_edits::{page_image, put_block};
use exh_page::Page;
use exh_prefix::Version;
use std::alloc::{AllocError, Global};

/// The page at a place of a draft. It takes memory for the page's records.
///
/// `File`: its block ends early or fails a test of a page. `Read`: it couldn't be read. `Memory`: a growth was refused.
pub(crate) fn page_at<B: Blocks>(
    alloc: Global,
    blocks: &mut B,
    draft: &Draft,
    place: u32,
) -> Result<Page, DirectFault>
    requires count { IsCount (B.known blocks.old) draft.now.edits.first }
    requires sound { IsSound draft.now }
    requires place { place < pages_in draft.now.header }
    ensures same_bytes { B.known blocks.new ≡ B.known blocks.old }
    ensures valid { IfOk result (IsPage second_version (pseudo_in draft.now)) }
    ensures legal { OfEach (B.known blocks.old) draft.now (λ base file. (page : PageValue) → slice_get file.pages place ≡ Some page → MatchResult result (λ found. found ≡ page) IsOtherFault) }
{
    exh_edits::blocks_stand();
    let at = page_block(place);
    let mut block = [0; BLOCK_LEN];
    read_edited(blocks, draft, at, &mut block)?;
    match decode_page_of(alloc, Version::Second, &draft.header.settings.keyer, &block) {
        Ok(page) => Ok(page),
        Err(fault) => Err(DirectFault::at_place(at, fault)),
    }
}

/// Gives the page at a place of a draft another content.
pub(crate) fn put_page(draft: &mut Draft, place: u32, page: &Page) -> Result<(), AllocError>
    requires sound { IsSound draft.old }
    requires place { place < pages_in draft.old.header }
    requires formed { IsWellFormed (pseudo_in draft.old) page.now }
    ensures header { draft.new.header ≡ draft.old.header }
    ensures first { draft.new.edits.first ≡ draft.old.edits.first }
    ensures sound { OnOk result (IsSound draft.new) }
    ensures is { OnOk result ((base : List ℕ) (file : PlacedFile) → IsOf base draft.old file → IsOf base draft.new (with_page place page.now file)) }
    ensures more { OnOk result (EditsMore (page_block_of place ∷ []) draft.old draft.new) }
{
    exh_edits::pages_change();
    let block = page_image(draft.header.settings.keyer, page);
    put_block(&mut draft.edits, page_block(place), &block)
}
