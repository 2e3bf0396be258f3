ghost use Rattle.std.specs.Prelude.{◌≡◌, ◌/◌, ℕ, List, [], Some, length, IfOk, MatchResult};
ghost use Rattle.exh_table.specs.Table.{TableMap};
ghost use Rattle.exh_codec.specs.declared.block.TheConstants.{BLOCK_LEN};
ghost use Rattle.exh_format.specs.Reading.{AreBytes};
ghost use Rattle.exh_cells.specs.LegalPlaced.{IsLegalPlacedFile};
ghost use Rattle.exh_cells.specs.PlacedFile.{PlacedFile};
ghost use Rattle.exh_direct.specs.DirectLaws.{IsOtherFault};
ghost use Rattle.exh_edits.specs.EditLists.{HaveOwnPlaces};
ghost use Rattle.exh_edits.specs.EditsInTurn.{AreInTurn};
ghost use Rattle.exh_change.specs.ChangeLaws.{map_then, reply_in};
ghost use Rattle.exh_change.specs.Batch.{IsChangeByAll, map_then_all, replies_in};
ghost use Rattle.exh_change.specs.Overlay.{shown};
ghost use Rattle.exh_change.specs.Steps.{IsReached, IsStampedLast};

use crate::change;
use crate::changed_all::ChangedAll;
use crate::overlay::Overlay;
use crate::under::Under;
use exh_calls::{Call, Reply};
use exh_direct::{Blocks, DirectFault};
use exh_format::push_item;
use std::alloc::Global;
use std::marker::Brand;

/// What calls are answered over a page file of version 3, one after the other, and the blocks that change with all of them
/// together, of which the header's has the new stamp, and before it the file's own; none where the map stays, as without a
/// call. It takes memory for what each call takes, for the replies, and for a block of each place that changes.
///
/// `File`: a block that is read ends early or fails a test, or the file hasn't as many blocks as its header tells. `Astray`: the
/// file isn't legal. `Read`: a block couldn't be read. `Memory`: a growth was refused. That the file is legal isn't asked.
pub fn change_all<B: Blocks>(
    alloc: Global,
    blocks: &mut B,
    calls: &[Call],
    stamp: u64,
) -> Result<ChangedAll, DirectFault>
    ensures none { calls.now ≡ [] → IfOk result (λ changed. changed.edits.items ≡ []) }
    ensures own { IfOk result (λ changed. HaveOwnPlaces changed.edits.items) }
    ensures turn { (bytes : List ℕ) → B.known blocks.old ≡ Some bytes → IfOk result (λ changed. (count : ℕ) × AreInTurn (length bytes / BLOCK_LEN) changed.edits.items count) }
    ensures legal { (file : PlacedFile) (tables : List TableMap) (bytes : List ℕ) → B.known blocks.old ≡ Some bytes → AreBytes bytes → IsLegalPlacedFile file tables bytes
        → MatchResult result (IsChangeByAll file bytes calls.now stamp) IsOtherFault }
{
    change_over::<B, Brand>(alloc, blocks, calls, stamp)
}

// The same, of known bytes.
fn change_over<B: Blocks, K: Under>(
    alloc: Global,
    blocks: &mut B,
    calls: &[Call],
    stamp: u64,
) -> Result<ChangedAll, DirectFault>
    requires { B.known blocks.old ≡ K.known }
    ensures none { calls.now ≡ [] → IfOk result (λ changed. changed.edits.items ≡ []) }
    ensures own { IfOk result (λ changed. HaveOwnPlaces changed.edits.items) }
    ensures turn { (bytes : List ℕ) → K.known ≡ Some bytes → IfOk result (λ changed. (count : ℕ) × AreInTurn (length bytes / BLOCK_LEN) changed.edits.items count) }
    ensures legal { (file : PlacedFile) (tables : List TableMap) (bytes : List ℕ) → K.known ≡ Some bytes → AreBytes bytes → IsLegalPlacedFile file tables bytes
        → MatchResult result (IsChangeByAll file bytes calls.now stamp) IsOtherFault }
{
    let mut overlay = Overlay::<B, K>::new(alloc, blocks);
    let header = overlay.header()?;
    if calls.is_empty() {
        return Ok(unchanged(alloc, header.stamp));
    }
    let replies = answer_all(alloc, &mut overlay, calls, stamp)?;
    let now = restamp(&mut overlay, header.stamp, stamp)?;
    Ok(ChangedAll {
        replies,
        stamp: now,
        edits: overlay.into_edits(),
    })
}

// What no calls make of a file that has this stamp.
fn unchanged(alloc: Global, stamp: u64) -> ChangedAll
    ensures replies { result.replies.items ≡ [] }
    ensures stamp { result.stamp ≡ stamp }
    ensures edits { result.edits.items ≡ [] }
{
    ChangedAll {
        replies: Vec::new(alloc),
        stamp,
        edits: Vec::new(alloc),
    }
}

// Answers calls one after the other.
fn answer_all<B: Blocks, K: Under>(
    alloc: Global,
    overlay: &mut Overlay<'_, B, K>,
    calls: &[Call],
    stamp: u64,
) -> Result<Vec<Reply>, DirectFault>
    ensures legal { (file : PlacedFile) (tables : List TableMap) (bytes : List ℕ) → shown K.known overlay.old.edits.items.items ≡ Some bytes → AreBytes bytes → IsLegalPlacedFile file tables bytes
        → MatchResult result (λ replies. IsReached file (map_then_all file calls.now) (shown K.known overlay.new.edits.items.items) × (replies.items ≡ replies_in file calls.now)) IsOtherFault }
{
    let mut replies = Vec::new(alloc);
    for call in calls {
        let reply = answer(alloc, overlay, call, stamp)?;
        push_item(&mut replies, reply)?;
    }
    Ok(replies)
}

// Answers a call, and makes its edits.
fn answer<B: Blocks, K: Under>(
    alloc: Global,
    overlay: &mut Overlay<'_, B, K>,
    call: &Call,
    stamp: u64,
) -> Result<Reply, DirectFault>
    ensures legal { (file : PlacedFile) (tables : List TableMap) (bytes : List ℕ) → shown K.known overlay.old.edits.items.items ≡ Some bytes → AreBytes bytes → IsLegalPlacedFile file tables bytes
        → MatchResult result (λ reply. IsReached file (map_then file call.now) (shown K.known overlay.new.edits.items.items) × (reply ≡ reply_in file call.now)) IsOtherFault }
{
    exh_edits::edited_blocks_stand();
    let changed = change(alloc, overlay, call, stamp)?;
    overlay.put_all(&changed.edits)?;
    Ok(changed.reply)
}

// Gives a file of which a block was edited the new stamp, and before it the own one; the stamp that the file has then.
fn restamp<B: Blocks, K: Under>(
    overlay: &mut Overlay<'_, B, K>,
    own: u64,
    stamp: u64,
) -> Result<u64, DirectFault>
    ensures legal { (file : PlacedFile) (tables : List TableMap) (bytes : List ℕ) → shown K.known overlay.old.edits.items.items ≡ Some bytes → IsLegalPlacedFile file tables bytes
        → MatchResult result (IsStampedLast file own stamp (shown K.known overlay.new.edits.items.items) overlay.new.edits.items.items) IsOtherFault }
{
    exh_edits::headers_change();
    crate::stamps_keep_legal();
    let mut header = overlay.header()?;
    if overlay.edits.items.len() == 0 {
        return Ok(header.stamp);
    }
    header.stamp = stamp;
    header.before = own;
    overlay.put_header(&header)?;
    Ok(stamp)
}
