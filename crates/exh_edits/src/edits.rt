ghost use Rattle.std.specs.Prelude.{◌≡◌, ◌+◌, ◌-◌, ◌*◌, ◌^◌, ◌<◌, ◌≤◌, ℕ, List, [], ◌∷◌, ◌++◌, length, map, max, nat_eq, slice_get, slice_set, false, IfNone, IfSome, OnErr, OnOk};
ghost use Rattle.std.specs.List.{list_any};
ghost use Rattle.exh_codec.specs.declared.block.TheConstants.{BLOCK_LEN};
ghost use Rattle.exh_edits.specs.EditsInTurn.{AreEdits, AreMoreAt, HasPlace, IsMade, StandsOver, StoodBefore, places_of};

use crate::block_edit::BlockEdit;
use exh_cells::push_item;
use exh_codec::BLOCK_LEN;
use std::alloc::{AllocError, Global};

/// Blocks of a file that are to have other content, or to stand behind its last one, at most one for each place.
#[derive(Drop)]
pub struct Edits {
    /// How many blocks the file has without them.
    pub first: u32,
    /// In the order in which their places were first edited.
    pub items: Vec<BlockEdit>,
    /// How many blocks it has with them.
    pub count: u32,
}

/// The edits of a file of so many blocks, of which there are none yet. It takes no memory.
pub fn no_edits(alloc: Global, count: u32) -> Edits
    ensures first { result.first ≡ count }
    ensures count { result.count ≡ count }
    ensures none { result.items.items ≡ [] }
    ensures edits { AreEdits result.first result.items.items result.count }
{
    Edits {
        first: count,
        items: Vec::new(alloc),
        count,
    }
}

/// Gives the block at a place this content, or puts a block behind the last one. It may need memory: an `AllocError` where
/// that is refused, and the edits are as before.
pub fn put_block(edits: &mut Edits, place: u32, block: &[u8; BLOCK_LEN]) -> Result<(), AllocError>
    requires edits { AreEdits edits.old.first edits.old.items.items edits.old.count }
    requires within { place ≤ edits.old.count }
    requires room { edits.old.count < 2 ^ 32 - 1 }
    ensures first { edits.new.first ≡ edits.old.first }
    ensures edits { AreEdits edits.new.first edits.new.items.items edits.new.count }
    ensures count { OnOk result (edits.new.count ≡ max edits.old.count (place + 1)) }
    ensures made { OnOk result (IsMade edits.old.first edits.old.items.items edits.new.items.items place block.now) }
    ensures more { OnOk result (AreMoreAt (place ∷ []) edits.old.items.items edits.new.items.items) }
    ensures err { OnErr result (edits.new.items.items ≡ edits.old.items.items) }
    ensures err_count { OnErr result (edits.new.count ≡ edits.old.count) }
{
    let edit = BlockEdit {
        place,
        block: *block,
    };
    match index_of(&edits.items, place) {
        Some(index) => {
            edits.items[index] = edit;
            Ok(())
        }
        None => add(edits, edit),
    }
}

// Puts an edit of a place of which there is none.
fn add(edits: &mut Edits, edit: BlockEdit) -> Result<(), AllocError>
    requires room { edit.place < 2 ^ 32 - 1 }
    ensures first { edits.new.first ≡ edits.old.first }
    ensures ok { OnOk result (edits.new.items.items ≡ edits.old.items.items ++ edit ∷ []) }
    ensures count { OnOk result (edits.new.count ≡ max edits.old.count (edit.place + 1)) }
    ensures err { OnErr result (edits.new.items.items ≡ edits.old.items.items) }
    ensures err_count { OnErr result (edits.new.count ≡ edits.old.count) }
{
    push_item(&mut edits.items, edit)?;
    edits.count = edits.count.max(edit.place + 1);
    Ok(())
}

/// The block that is to stand at a place, `None` where no edit is of it. It takes no memory.
pub fn block_in(edits: &Edits, place: u32) -> Option<[u8; BLOCK_LEN]>
    requires { AreEdits edits.now.first edits.now.items.items edits.now.count }
    ensures some { IfSome result (StandsOver edits.now.first edits.now.items.items place) }
    ensures none { IfNone result (StoodBefore edits.now.first edits.now.items.items edits.now.count place) }
{
    match index_of(&edits.items, place) {
        Some(index) => Some(edits.items[index].block),
        None => None,
    }
}

// The index of the edit of a place.
fn index_of(items: &[BlockEdit], place: u32) -> Option<usize>
    ensures some { IfSome result (HasPlace items.now place) }
    ensures none { IfNone result (list_any (nat_eq place) (places_of items.now) ≡ false) }
{
    for index in 0..items.len() {
        if items[index].place == place {
            return Some(index);
        }
    }
    None
}
