ghost use Rattle.std.specs.Prelude.{◌≡◌, ◌<◌, ◌≤◌, ◌+◌, ◌-◌, ◌/◌, ◌^◌, ◌↔◌, ℕ, Bool, true, false, List, [], ◌∷◌, ◌++◌, Option, Some, length, slice_get, IsTrue, IfOk, IfErr, MatchResult, OnOk};
ghost use Rattle.exh_prefix.specs.declared.prefix.TheConstants.{LIMIT};
ghost use Rattle.exh_page.specs.declared.page.Page.TheVariants.{Live};
ghost use Rattle.exh_page.specs.declared.page.TheConstants.{CAP_LIMIT};
ghost use Rattle.exh_page.specs.declared.record.Record.{Record};
ghost use Rattle.exh_page.specs.declared.page.Page.{Page as PageValue};
ghost use Rattle.exh_page.specs.Page.{IsLive, IsWellFormed, records_of};
ghost use Rattle.exh_cells.specs.WalkImage.{IsCell};
ghost use Rattle.exh_direct.specs.DirectLaws.{IsOtherFault};
ghost use Rattle.exh_direct.specs.KnownBlocks.{IsCount};
ghost use Rattle.exh_change.specs.WalkBlocks.{pages_in};
ghost use Rattle.exh_change.specs.PlacedSteps.{slot_of};
ghost use Rattle.exh_table.specs.Table.{TableMap};
ghost use Rattle.exh_format.specs.Reading.{AreBytes};
ghost use Rattle.exh_cells.specs.LegalPlaced.{IsLegalPlaced, IsLegalPlacedFile};
ghost use Rattle.exh_cells.specs.PlacedFile.{PlacedFile};
ghost use Rattle.exh_page.specs.Halves.{sent_to, union};
ghost use Rattle.exh_edits.specs.PlacedEdits.{with_page};
ghost use Rattle.exh_cells.specs.Places.{page_block_of};
ghost use Rattle.exh_change.specs.Changes.{EditsMore, HasSameLeaves, IsLater, IsOfPrefix, MayEditTwo, Settles, SettlesLeft};
ghost use Rattle.exh_change.specs.Leaves.{leaves_in};
ghost use Rattle.exh_change.specs.Drafts.{IsOf, IsSound, OfEach, pseudo_in};

use crate::answer::record_count;
use crate::cells::{cell_at, put_cell, with_change};
use crate::draft::Draft;
use crate::pages::{page_at, put_page};
use crate::{find_home, page_count};
use exh_cells::Cell;
use exh_direct::{Blocks, DirectFault};
use exh_page::Page;
use exh_prefix::Prefix;
use std::alloc::{AllocError, Global};

/// Merges the page at a place of a draft, which a key was taken out of and has this prefix, with its buddy, where both are
/// live and have no more than half as many records as a page may have. It is let be where that isn't so.
pub(crate) fn merge<B: Blocks>(
    alloc: Global,
    blocks: &mut B,
    draft: &mut Draft,
    place: u32,
    prefix: Prefix,
) -> Result<(), DirectFault>
    requires count { IsCount (B.known blocks.old) draft.old.edits.first }
    requires sound { IsSound draft.old }
    requires place { place < pages_in draft.old.header }
    ensures same_bytes { B.known blocks.new ≡ B.known blocks.old }
    ensures later { IsLater draft.old draft.new }
    ensures sound { OnOk result (IsSound draft.new) }
    ensures two { OnOk result (MayEditTwo draft.old draft.new) }
    ensures legal { OfEach (B.known blocks.old) draft.old (λ base file. (tables : List TableMap) (old : PlacedFile) (old_tables : List TableMap) → IsLegalPlaced file tables → AreBytes base → IsLegalPlacedFile old old_tables base → HasSameLeaves old file
        → slice_get (leaves_in file) place ≡ Some (Some prefix) → MatchResult result (λ _. Settles base file place draft.old draft.new) IsOtherFault) }
{
    crate::pages_stand_apart();
    if prefix.len() <= draft.header.settings.ward_bits {
        return Ok(());
    }
    let parent = prefix.parent().unwrap();
    if prefix.is_right_child() {
        let left = find_home(
            alloc,
            blocks,
            u64::from(draft.edits.first),
            &draft.header,
            parent.low(),
        )?;
        merge_left(alloc, blocks, draft, left.place, parent)
    } else {
        merge_left(alloc, blocks, draft, place, parent)
    }
}

// Merges the page at a place with its right buddy, where it is the left child of a prefix.
fn merge_left<B: Blocks>(
    alloc: Global,
    blocks: &mut B,
    draft: &mut Draft,
    place: u32,
    parent: Prefix,
) -> Result<(), DirectFault>
    requires count { IsCount (B.known blocks.old) draft.old.edits.first }
    requires sound { IsSound draft.old }
    requires place { place < pages_in draft.old.header }
    requires short { length parent < LIMIT }
    requires inner { draft.old.header.settings.ward_bits ≤ length parent }
    ensures same_bytes { B.known blocks.new ≡ B.known blocks.old }
    ensures later { IsLater draft.old draft.new }
    ensures sound { OnOk result (IsSound draft.new) }
    ensures two { OnOk result (MayEditTwo draft.old draft.new) }
    ensures legal { OfEach (B.known blocks.old) draft.old (λ base file. (tables : List TableMap) → IsLegalPlaced file tables → MatchResult result (λ _. SettlesLeft base file parent place draft.old draft.new) IsOtherFault) }
{
    crate::merges_keep_legal();
    crate::pages_stand_apart();
    let page = page_at(alloc, blocks, draft, place)?;
    if !is_child(&page, parent, false) {
        return Ok(());
    }
    let cell = cell_at(alloc, blocks, draft, place)?;
    let slot = cell.slots[usize::from(parent.len())];
    if slot.number % 2 == 0 || slot.page >= page_count(&draft.header) {
        return Err(DirectFault::Astray);
    }
    let right = page_at(alloc, blocks, draft, slot.page)?;
    if !may_unite(
        draft.header.settings.cap,
        slot.number,
        &page,
        &right,
        parent,
    ) {
        return Ok(());
    }
    let changed = with_change(&cell, usize::from(parent.len()), slot.page);
    put_cell(alloc, blocks, draft, place, changed)?;
    unite(draft, place, &page, slot.page, &right, parent, cell.number)?;
    Ok(())
}

// Whether a left half and the page that a slot of this number names may be merged.
fn may_unite(cap: u8, number: u32, page: &Page, right: &Page, parent: Prefix) -> bool
    requires short { length parent < LIMIT }
    requires few { length (records_of page.now) ≤ CAP_LIMIT }
    requires right_few { length (records_of right.now) ≤ CAP_LIMIT }
    ensures may { result ≡ true → (number < 2 ^ 32 - 1) × IsOfPrefix (parent ++ true ∷ []) right.now × (length (records_of page.now) + length (records_of right.now) ≤ cap / 2) }
    ensures may_not { result ≡ false → number < 2 ^ 32 - 1 → IsOfPrefix (parent ++ true ∷ []) right.now → length (records_of page.now) + length (records_of right.now) ≤ cap / 2 → ⊥ }
{
    number != u32::MAX
        && is_child(right, parent, true)
        && record_count(page) + record_count(right) <= usize::from(cap / 2)
}

// Gives the page at a place the records of its right buddy at another, which sends callers on to it.
fn unite(
    draft: &mut Draft,
    place: u32,
    page: &Page,
    right_place: u32,
    right: &Page,
    parent: Prefix,
    number: u32,
) -> Result<(), AllocError>
    requires sound { IsSound draft.old }
    requires place { place < pages_in draft.old.header }
    requires right_place { right_place < pages_in draft.old.header }
    requires formed { IsWellFormed (pseudo_in draft.old) page.now }
    requires right_formed { IsWellFormed (pseudo_in draft.old) right.now }
    requires short { length parent < LIMIT }
    requires left { IsOfPrefix (parent ++ false ∷ []) page.now }
    requires right { IsOfPrefix (parent ++ true ∷ []) right.now }
    requires few { length (records_of page.now) + length (records_of right.now) ≤ draft.old.header.settings.cap }
    ensures later { IsLater draft.old draft.new }
    ensures sound { OnOk result (IsSound draft.new) }
    ensures is { OnOk result ((base : List ℕ) (file : PlacedFile) → IsOf base draft.old file → IsOf base draft.new (with_page right_place (sent_to number right.now) (with_page place (union parent page.now right.now) file))) }
    ensures more { OnOk result (EditsMore (page_block_of place ∷ page_block_of right_place ∷ []) draft.old draft.new) }
{
    exh_legal::buddies_unite();
    let union = page.union(parent, right)?;
    put_page(draft, place, &union)?;
    put_page(draft, right_place, &right.sent_to(number))
}

// Whether a page is the live page of a prefix's child by a bit.
fn is_child(page: &Page, parent: Prefix, bit: bool) -> bool
    requires { length parent < LIMIT }
    ensures { IsTrue result ↔ IsOfPrefix (parent ++ bit ∷ []) page.now }
{
    let child = parent.child(bit).unwrap();
    match page {
        Page::Live { prefix, .. } => *prefix == child,
        Page::Forward { .. } => false,
    }
}
