ghost use Rattle.std.specs.Prelude.{◌≡◌, ◌<◌, ◌≤◌, ◌/◌, ◌^◌, ℕ, Bool, true, false, List, [], ◌∷◌, Some, length, nat_le, slice_get, IfOk, IfErr, MatchResult, OnOk};
ghost use Rattle.exh_prefix.specs.Version.{second_version};
ghost use Rattle.exh_keyer.specs.Pseudokey.{any_pseudokey};
ghost use Rattle.exh_table.specs.Table.{TableMap};
ghost use Rattle.exh_page.specs.Page.{IsLive, IsWellFormed, records_of, with_records};
ghost use Rattle.exh_codec.specs.declared.block.TheConstants.{BLOCK_LEN};
ghost use Rattle.exh_calls.specs.Call.{key_of};
ghost use Rattle.exh_calls.specs.declared.call.Call.TheVariants.{Del, Get};
ghost use Rattle.exh_calls.specs.Effect.{sets_new};
ghost use Rattle.exh_direct.specs.DirectLaws.{IsOtherFault};
ghost use Rattle.exh_direct.specs.KnownBlocks.{IsCount};
ghost use Rattle.exh_change.specs.WalkBlocks.{pages_in};
ghost use Rattle.exh_change.specs.PageAnswer.{OverflowsPage, effect_at, records_after, reply_by};
ghost use Rattle.exh_format.specs.Reading.{AreBytes};
ghost use Rattle.exh_cells.specs.LegalPlaced.{IsLegalPlaced, IsLegalPlacedFile};
ghost use Rattle.exh_cells.specs.PlacedFile.{PlacedFile};
ghost use Rattle.exh_edits.specs.PlacedEdits.{with_header};
ghost use Rattle.exh_change.specs.ChangeLaws.{IsAnswered, IsAnsweredAt, IsChange, stamped_anew};
ghost use Rattle.exh_change.specs.Changes.{AreCounted, EditsMore, HasSameLeaves, IsHomeOf, IsLater, MayEditTwo, Settles};
ghost use Rattle.exh_change.specs.Leaves.{leaf_of, leaves_in, most_edits};
ghost use Rattle.exh_change.specs.Drafts.{IsOf, IsSound, OfEach, pseudo_in};
ghost use Rattle.exh_edits.specs.EditsInTurn.{AreEdits};

use crate::answer::{answer, record_count};
use crate::changed::Changed;
use crate::draft::Draft;
use crate::halves::prefix_of;
use crate::merging::merge;
use crate::pages::put_page;
use crate::reading::read_draft;
use crate::splitting::make_room;
use crate::{Home, find_home};
use exh_calls::{Call, Reply};
use exh_cells::StampedHeader;
use exh_direct::{Blocks, DirectFault};
use exh_edits::{header_image, put_block};
use exh_keyer::Keyer;
use std::alloc::{AllocError, Global};

/// What a call is answered over a page file of version 3, and the blocks that change with it, of which the header's has the
/// new stamp; none where the map stays. Read are the header, the walk blocks on the key's way and its page, for each split the
/// walk blocks of the pages that change and the page that is made live again, and for a merge those of the buddies. It takes
/// memory for the cells and records of these, and for the edits.
///
/// `File`: a block that is read ends early or fails a test, or the file hasn't as many blocks as its header tells. `Astray`: the
/// file isn't legal. `Read`: a block couldn't be read. `Memory`: a growth was refused. That the file is legal isn't asked.
pub fn change<B: Blocks>(
    alloc: Global,
    blocks: &mut B,
    call: &Call,
    stamp: u64,
) -> Result<Changed, DirectFault>
    ensures same_bytes { B.known blocks.new ≡ B.known blocks.old }
    ensures edits { (bytes : List ℕ) → B.known blocks.old ≡ Some bytes → IfOk result (λ changed. (count : ℕ) × AreEdits (length bytes / BLOCK_LEN) changed.edits.items count) }
    ensures few { IfOk result (λ changed. length changed.edits.items ≤ most_edits call.now) }
    ensures legal { (file : PlacedFile) (tables : List TableMap) (bytes : List ℕ) → B.known blocks.old ≡ Some bytes → AreBytes bytes → IsLegalPlacedFile file tables bytes → MatchResult result (IsChange file bytes call.now stamp) IsOtherFault }
{
    let mut draft = read_draft(alloc, blocks)?;
    let (reply, changes) = change_in(alloc, blocks, &mut draft, call, stamp)?;
    Ok(changed_by(alloc, draft, reply, changes))
}

// The reply, and the edits of a draft that changes.
fn changed_by(alloc: Global, draft: Draft, reply: Reply, changes: bool) -> Changed
    ensures reply { result.reply ≡ reply }
    ensures edits { changes ≡ true → result.edits.items ≡ draft.edits.items.items }
    ensures none { changes ≡ false → result.edits.items ≡ [] }
{
    let edits = if changes {
        draft.edits.items
    } else {
        Vec::new(alloc)
    };
    Changed { reply, edits }
}

// Answers a call over a draft that hasn't changed yet, and whether the draft is another file then.
fn change_in<B: Blocks>(
    alloc: Global,
    blocks: &mut B,
    draft: &mut Draft,
    call: &Call,
    stamp: u64,
) -> Result<(Reply, bool), DirectFault>
    requires count { IsCount (B.known blocks.old) draft.old.edits.first }
    requires sound { IsSound draft.old }
    ensures same_bytes { B.known blocks.new ≡ B.known blocks.old }
    ensures first { draft.new.edits.first ≡ draft.old.edits.first }
    ensures sound { OnOk result (IsSound draft.new) }
    ensures few { draft.old.edits.items.items ≡ [] → IfOk result (λ answered. answered.1 ≡ true → length draft.new.edits.items.items ≤ most_edits call.now) }
    ensures legal { OfEach (B.known blocks.old) draft.old (λ base file. (tables : List TableMap) → draft.old.edits.items.items ≡ [] → AreBytes base → IsLegalPlaced file tables
        → MatchResult result (λ answered. IsAnswered base file call.now stamp draft.new answered.0 answered.1) IsOtherFault) }
{
    crate::answers_keep_legal();
    crate::stamps_keep_legal();
    let pseudokey = draft.header.settings.keyer.pseudo(call.key().as_bytes());
    let home = find_home(
        alloc,
        blocks,
        u64::from(draft.edits.first),
        &draft.header,
        pseudokey,
    )?;
    let mut home = make_room(alloc, blocks, draft, home, pseudokey, call)?;
    let (reply, changes) = answer_at(draft, &mut home, pseudokey, call)?;
    if !changes {
        return Ok((reply, false));
    }
    settle(alloc, blocks, draft, &home, call)?;
    put_stamp(draft, stamp)?;
    Ok((reply, true))
}

// Merges the home of a call's key, which the call changed, where it took the key out.
fn settle<B: Blocks>(
    alloc: Global,
    blocks: &mut B,
    draft: &mut Draft,
    home: &Home,
    call: &Call,
) -> Result<(), DirectFault>
    requires count { IsCount (B.known blocks.old) draft.old.edits.first }
    requires sound { IsSound draft.old }
    requires place { home.now.place < pages_in draft.old.header }
    requires live { IsLive home.now.page }
    ensures same_bytes { B.known blocks.new ≡ B.known blocks.old }
    ensures later { IsLater draft.old draft.new }
    ensures sound { OnOk result (IsSound draft.new) }
    // What isn't a del merges nothing.
    ensures still { OnOk result (((key : List ℕ) → call.now ≡ Del key → ⊥) → draft.new ≡ draft.old) }
    ensures two { OnOk result (MayEditTwo draft.old draft.new) }
    ensures legal { OfEach (B.known blocks.old) draft.old (λ base file. (tables : List TableMap) (old : PlacedFile) (old_tables : List TableMap) → IsLegalPlaced file tables → AreBytes base → IsLegalPlacedFile old old_tables base
        → (sets_new call.now ≡ false → HasSameLeaves old file) → slice_get (leaves_in file) home.now.place ≡ Some (leaf_of home.now.page)
        → MatchResult result (λ _. (key : List ℕ) → call.now ≡ Del key → Settles base file home.now.place draft.old draft.new) IsOtherFault) }
{
    match call {
        Call::Del { .. } => merge(alloc, blocks, draft, home.place, prefix_of(&home.page)),
        Call::Get { .. } | Call::Put { .. } | Call::Swap { .. } => Ok(()),
    }
}

// Answers a call at its home, and whether it changes that.
fn answer_at(
    draft: &mut Draft,
    home: &mut Home,
    pseudokey: u64,
    call: &Call,
) -> Result<(Reply, bool), AllocError>
    requires sound { IsSound draft.old }
    requires home { IsHomeOf draft.old pseudokey home.old }
    requires hashed { pseudokey ≡ pseudo_in draft.old (key_of call.now) }
    ensures later { IsLater draft.old draft.new }
    ensures sound { OnOk result (IsSound draft.new) }
    ensures pages { draft.new.header ≡ draft.old.header }
    ensures place { OnOk result (home.new.place ≡ home.old.place) }
    ensures live { OnOk result (IsLive home.new.page) }
    ensures formed { OnOk result (IsWellFormed (pseudo_in draft.old) home.new.page) }
    ensures leaf { OnOk result (leaf_of home.new.page ≡ leaf_of home.old.page) }
    ensures counted { OnOk result ((digits : ℕ) → AreCounted draft.old home.old digits → AreCounted draft.new home.new digits) }
    // A get changes nothing.
    ensures got { IfOk result (λ answered. (key : List ℕ) → call.now ≡ Get key → answered.1 ≡ true → ⊥) }
    ensures answered { IfOk result (λ answered. (base : List ℕ) (file : PlacedFile) → IsOf base draft.old file → IsAnsweredAt base file call.now home.old draft.new answered.0 answered.1) }
{
    let full = record_count(&home.page) >= usize::from(draft.header.settings.cap);
    let (reply, changes) = answer(&mut home.page, full, pseudokey, call)?;
    if changes {
        put_page(draft, home.place, &home.page)?;
    }
    Ok((reply, changes))
}

// Gives the file a new stamp; the one before is the old own one.
fn put_stamp(draft: &mut Draft, stamp: u64) -> Result<(), AllocError>
    requires sound { IsSound draft.old }
    ensures first { draft.new.edits.first ≡ draft.old.edits.first }
    ensures sound { OnOk result (IsSound draft.new) }
    ensures is { OnOk result ((base : List ℕ) (file : PlacedFile) → IsOf base draft.old file → IsOf base draft.new (with_header (stamped_anew stamp file.header) file)) }
    ensures more { OnOk result (EditsMore (0 ∷ []) draft.old draft.new) }
{
    exh_edits::headers_change();
    let header = StampedHeader {
        settings: draft.header.settings,
        page_counts: draft.header.page_counts,
        stamp,
        before: draft.header.stamp,
    };
    put_block(&mut draft.edits, 0, &header_image(&header))?;
    draft.header = header;
    Ok(())
}
