ghost use Rattle.std.specs.Prelude.{◌≡◌, ◌≢◌, ◌<◌, ◌≤◌, ◌+◌, ◌-◌, ◌^◌, ◌%◌, ◌⊎◌, ℕ, Bool, true, false, List, [], ◌∷◌, ◌++◌, Option, Some, length, slice_get, IsTrue, ◌↔◌, IfOk, IfErr, MatchResult, OnOk};
ghost use Rattle.exh_prefix.specs.declared.prefix.TheConstants.{LIMIT};
ghost use Rattle.exh_prefix.specs.Prefix.{Begins, low_of};
ghost use Rattle.exh_page.specs.declared.page.Page.TheVariants.{Forward, Live};
ghost use Rattle.exh_page.specs.declared.record.Record.{Record};
ghost use Rattle.exh_page.specs.Page.{IsDivisible, low_bound, records_of};
ghost use Rattle.exh_table.specs.Table.{TableMap};
ghost use Rattle.exh_legal.specs.Pages.{IsHome};
ghost use Rattle.exh_cells.specs.LegalPlaced.{IsLegalPlaced};
ghost use Rattle.exh_cells.specs.WalkImage.{IsCell};
ghost use Rattle.exh_direct.specs.DirectLaws.{IsOtherFault};
ghost use Rattle.exh_direct.specs.KnownBlocks.{IsCount};
ghost use Rattle.exh_change.specs.Changes.{HasGrown, HasRoom, IsAtHome, IsHalved, IsHomeOf, IsLater};
ghost use Rattle.exh_change.specs.Drafts.{IsOf, IsSound, OfEach, pseudo_in};
ghost use Rattle.exh_change.specs.PageAnswer.{OverflowsPage};
ghost use Rattle.exh_calls.specs.Effect.{sets_new};
ghost use Rattle.exh_change.specs.PlacedSteps.{count_in, slot_of, split_fresh, split_revived};
ghost use Rattle.exh_change.specs.PlacedHome.{IsHomeIn};
ghost use Rattle.exh_cells.specs.declared.cell.Cell.{Cell as CellValue};

use crate::adding::add_page;
use crate::answer::overflows;
use crate::cells::{cell_at, put_cell, with_change};
use crate::draft::Draft;
use crate::halves::{Halves, halves_of, prefix_of};
use crate::pages::{page_at, put_page};
use crate::{Home, page_count};
use exh_calls::Call;
use exh_cells::Cell;
use exh_direct::{Blocks, DirectFault};
use exh_page::Page;
use exh_prefix::{Prefix, ward_number};
use std::alloc::Global;

/// Splits the home of a call's key as long as the call would overflow it. It answers the key's home then.
pub(crate) fn make_room<B: Blocks>(
    alloc: Global,
    blocks: &mut B,
    draft: &mut Draft,
    home: Home,
    pseudokey: u64,
    call: &Call,
) -> Result<Home, DirectFault>
    requires count { IsCount (B.known blocks.old) draft.old.edits.first }
    requires sound { IsSound draft.old }
    requires home { IsHomeOf draft.old pseudokey home }
    ensures same_bytes { B.known blocks.new ≡ B.known blocks.old }
    ensures later { IsLater draft.old draft.new }
    ensures sound { OnOk result (IsSound draft.new) }
    ensures home { IfOk result (IsHomeOf draft.new pseudokey) }
    ensures fits { IfOk result (λ home. OverflowsPage draft.old.header.settings.cap pseudokey home.page call.now → ⊥) }
    // A call that sets no new key splits nothing.
    ensures still { IfOk result (λ next. sets_new call.now ≡ false → (draft.new ≡ draft.old) × (next ≡ home)) }
    ensures grown { IfOk result (λ next. draft.old.edits.items.items ≡ [] → HasGrown home next draft.new) }
    ensures legal { OfEach (B.known blocks.old) draft.old (λ base file. (tables : List TableMap) → IsLegalPlaced file tables → IsHomeIn file pseudokey home → MatchResult result (HasRoom base file draft.new pseudokey) IsOtherFault) }
{
    let mut home = home;
    while overflows(&home.page, draft.header.settings.cap, pseudokey, call) {
        home = split(alloc, blocks, draft, &home, pseudokey)?;
    }
    Ok(home)
}

// Splits the home of a pseudokey once, and answers its home then.
fn split<B: Blocks>(
    alloc: Global,
    blocks: &mut B,
    draft: &mut Draft,
    home: &Home,
    pseudokey: u64,
) -> Result<Home, DirectFault>
    requires count { IsCount (B.known blocks.old) draft.old.edits.first }
    requires sound { IsSound draft.old }
    requires home { IsHomeOf draft.old pseudokey home.now }
    requires short { IsDivisible home.now.page }
    ensures same_bytes { B.known blocks.new ≡ B.known blocks.old }
    ensures later { IsLater draft.old draft.new }
    ensures sound { OnOk result (IsSound draft.new) }
    ensures home { IfOk result (IsHomeOf draft.new pseudokey) }
    ensures halved { IfOk result (IsHalved draft.old draft.new home.now.place) }
    ensures longer { IfOk result (λ next. (old new : List Bool) (link more_link : Option ℕ) (records more : List Record) → home.now.page ≡ Live old link records → next.page ≡ Live new more_link more → length new ≡ length old + 1) }
    ensures legal { OfEach (B.known blocks.old) draft.old (λ base file. (tables : List TableMap) → IsLegalPlaced file tables → IsHomeIn file pseudokey home.now → draft.old.header.settings.cap ≤ length (records_of home.now.page)
        → MatchResult result (HasRoom base file draft.new pseudokey) IsOtherFault) }
{
    crate::splits_keep_legal();
    let prefix = prefix_of(&home.page);
    let cell = cell_at(alloc, blocks, draft, home.place)?;
    let slot = cell.slots[usize::from(prefix.len())];
    if slot.number % 2 != 0 {
        return Err(DirectFault::Astray);
    }
    if slot.number == 0 {
        split_fresh(alloc, blocks, draft, home, prefix, &cell, pseudokey)
    } else {
        split_revived(
            alloc, blocks, draft, home, prefix, &cell, slot.page, pseudokey,
        )
    }
}

// The same, where the right half is a new page.
fn split_fresh<B: Blocks>(
    alloc: Global,
    blocks: &mut B,
    draft: &mut Draft,
    home: &Home,
    prefix: Prefix,
    cell: &Cell,
    pseudokey: u64,
) -> Result<Home, DirectFault>
    requires count { IsCount (B.known blocks.old) draft.old.edits.first }
    requires sound { IsSound draft.old }
    requires home { IsHomeOf draft.old pseudokey home.now }
    requires prefix { (link : Option ℕ) × (records : List Record) × (home.now.page ≡ Live prefix link records) }
    requires short { length prefix < LIMIT }
    requires cell { IsCell cell.now }
    requires new { (slot_of cell.now (length prefix)).number ≡ 0 }
    ensures same_bytes { B.known blocks.new ≡ B.known blocks.old }
    ensures later { IsLater draft.old draft.new }
    ensures sound { OnOk result (IsSound draft.new) }
    ensures home { IfOk result (IsHomeOf draft.new pseudokey) }
    ensures longer { IfOk result (λ next. (new : List Bool) (link : Option ℕ) (records : List Record) → next.page ≡ Live new link records → length new ≡ length prefix + 1) }
    ensures halved { IfOk result (IsHalved draft.old draft.new home.now.place) }
    ensures legal { OfEach (B.known blocks.old) draft.old (λ base file. (link : Option ℕ) (records : List Record) → home.now.page ≡ Live prefix link records → slice_get file.pages home.now.place ≡ Some home.now.page
        → slice_get file.cells home.now.place ≡ Some cell.now → count_in file prefix < 2 ^ (LIMIT - file.header.settings.ward_bits)
        → MatchResult result (λ next. IsAtHome base draft.new pseudokey next (split_fresh home.now.place prefix link records cell.now file)) IsOtherFault) }
{
    let place = page_count(&draft.header);
    let ward = usize::from(ward_number(draft.header.settings.ward_bits, prefix.low()));
    let number = draft.header.page_counts[ward];
    let halves = halves_of(draft.header.settings.keyer, &home.page, number)?;
    add_page(alloc, blocks, draft, ward, &halves.right)?;
    let cell = with_change(cell, usize::from(prefix.len()), place);
    put_cell(alloc, blocks, draft, home.place, cell)?;
    put_page(draft, home.place, &halves.left)?;
    Ok(home_of(home.place, place, halves, prefix, pseudokey))
}

// The same, where the right half is a forwarding page that is made live again.
fn split_revived<B: Blocks>(
    alloc: Global,
    blocks: &mut B,
    draft: &mut Draft,
    home: &Home,
    prefix: Prefix,
    cell: &Cell,
    place: u32,
    pseudokey: u64,
) -> Result<Home, DirectFault>
    requires count { IsCount (B.known blocks.old) draft.old.edits.first }
    requires sound { IsSound draft.old }
    requires home { IsHomeOf draft.old pseudokey home.now }
    requires prefix { (link : Option ℕ) × (records : List Record) × (home.now.page ≡ Live prefix link records) }
    requires short { length prefix < LIMIT }
    requires cell { IsCell cell.now }
    requires even { (slot_of cell.now (length prefix)).number % 2 ≡ 0 }
    ensures same_bytes { B.known blocks.new ≡ B.known blocks.old }
    ensures later { IsLater draft.old draft.new }
    ensures sound { OnOk result (IsSound draft.new) }
    ensures home { IfOk result (IsHomeOf draft.new pseudokey) }
    ensures longer { IfOk result (λ next. (new : List Bool) (link : Option ℕ) (records : List Record) → next.page ≡ Live new link records → length new ≡ length prefix + 1) }
    ensures halved { IfOk result (IsHalved draft.old draft.new home.now.place) }
    ensures legal { OfEach (B.known blocks.old) draft.old (λ base file. (link : Option ℕ) (records : List Record) (target : ℕ) (right_cell : CellValue) → home.now.page ≡ Live prefix link records → slice_get file.pages home.now.place ≡ Some home.now.page
        → slice_get file.cells home.now.place ≡ Some cell.now → slice_get file.pages place ≡ Some (Forward (low_of (prefix ++ true ∷ [])) target) → slice_get file.cells place ≡ Some right_cell → right_cell.number < 2 ^ 32 - 1
        → MatchResult result (λ next. IsAtHome base draft.new pseudokey next (split_revived home.now.place prefix link records cell.now place right_cell.number file)) IsOtherFault) }
{
    if place >= page_count(&draft.header) {
        return Err(DirectFault::Astray);
    }
    let number = cell_at(alloc, blocks, draft, place)?.number;
    if number == u32::MAX {
        return Err(DirectFault::Astray);
    }
    let halves = halves_of(draft.header.settings.keyer, &home.page, number)?;
    let old = page_at(alloc, blocks, draft, place)?;
    if !is_forward(&old, halves.right.low()) {
        return Err(DirectFault::Astray);
    }
    let cell = with_change(cell, usize::from(prefix.len()), place);
    put_cell(alloc, blocks, draft, home.place, cell)?;
    put_page(draft, home.place, &halves.left)?;
    put_page(draft, place, &halves.right)?;
    Ok(home_of(home.place, place, halves, prefix, pseudokey))
}

// Whether a page is the forwarding page of a low bound.
fn is_forward(page: &Page, own: u64) -> bool
    ensures { IsTrue result ↔ ((target : ℕ) × (page.now ≡ Forward own target)) }
{
    match page {
        Page::Live { .. } => false,
        Page::Forward { low, .. } => *low == own,
    }
}

// Of the halves of a pseudokey's home, at their places, the one that is its home then.
fn home_of(place: u32, right_place: u32, halves: Halves, prefix: Prefix, pseudokey: u64) -> Home
    requires short { length prefix < LIMIT }
    ensures { (Begins (prefix ++ true ∷ []) pseudokey × (result ≡ record { place = right_place; page = halves.right })) ⊎ ((Begins (prefix ++ true ∷ []) pseudokey → ⊥) × (result ≡ record { place = place; page = halves.left })) }
{
    let child = prefix.child(true).unwrap();
    if child.begins(pseudokey) {
        Home {
            place: right_place,
            page: halves.right,
        }
    } else {
        Home {
            place,
            page: halves.left,
        }
    }
}
