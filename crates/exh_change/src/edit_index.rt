ghost use Rattle.std.specs.Prelude.{◌≡◌, ◌≤◌, ◌+◌, [], ◌∷◌, ◌++◌, max, IfErr, IfSome, IfNone, OnErr, OnOk};
ghost use Rattle.exh_format.specs.Reading.{IsBlock};
ghost use Rattle.exh_direct.specs.DirectLaws.{IsOtherFault};
ghost use Rattle.exh_edits.specs.EditLists.{HaveOwnPlaces, IsUnedited};
ghost use Rattle.exh_edits.specs.EditsInTurn.{AreInTurn, HasPlace};
ghost use Rattle.exh_change.specs.Index.{AreFound, AreInTurn-prop, AreOfBlocks, HasBlock, IsPut};
ghost use Rattle.std.proofs.Props.{props};

use exh_codec::BLOCK_LEN;
use exh_direct::DirectFault;
use exh_edits::BlockEdit;
use exh_format::push_item;
use std::alloc::{AllocError, Global};
use std::collections::BTreeMap;

/// Edits of a file's blocks, at most one of a place, each found by its place.
#[derive(Drop)]
pub(crate) struct EditIndex {
    /// How many blocks the file has without them.
    pub(crate) first: u64,
    /// In the order in which their places were first edited.
    pub(crate) items: Vec<BlockEdit>,
    /// How many blocks it has with them.
    pub(crate) count: u64,
    // Where the edit of a place stands among them.
    places: BTreeMap<u32, usize>,
    ghost turn: { AreInTurn first items.items count } by { AreInTurn-prop first items.items count },
    ghost blocks: { AreOfBlocks items.items },
    ghost found: { AreFound items.items places.entries } by { Prim.hlevel props },
}

impl EditIndex {
    /// Those of a file of so many blocks, of which there are none yet. It takes no memory.
    pub(crate) fn new(alloc: Global, count: u64) -> EditIndex
        ensures first { result.first ≡ count }
        ensures none { result.items.items ≡ [] }
    {
        EditIndex {
            first: count,
            items: Vec::new(alloc),
            count,
            places: BTreeMap::new(alloc),
        }
    }

    /// The block that is to stand at a place, `None` where no edit is of it.
    pub(crate) fn block_at(&self, place: u32) -> Option<[u8; BLOCK_LEN]>
        ensures some { IfSome result (HasBlock self.now.items.items place) }
        ensures none { IfNone result (IsUnedited place self.now.items.items) }
    {
        match self.index_of(place) {
            Some(index) => Some(self.items[index].block),
            None => None,
        }
    }

    /// Gives the block of an edit's place its content, or puts it behind the last one.
    ///
    /// `Astray`: the place is behind the end of the file. `Memory`: a growth was refused. The edits are as before.
    pub(crate) fn put(&mut self, edit: &BlockEdit) -> Result<(), DirectFault>
        ensures first { self.new.first ≡ self.old.first }
        ensures count { OnOk result (self.new.count ≡ max self.old.count (edit.now.place + 1)) }
        ensures within { OnOk result (edit.now.place ≤ self.old.count) }
        ensures put { OnOk result (IsPut self.old.items.items edit.now self.new.items.items) }
        ensures block { OnOk result (IsBlock edit.now.block) }
        ensures err { IfErr result (λ fault. edit.now.place ≤ self.old.count → IsOtherFault fault) }
    {
        if u64::from(edit.place) > self.count {
            return Err(DirectFault::Astray);
        }
        tell_bytes(&edit.block);
        match self.index_of(edit.place) {
            Some(index) => {
                self.items[index] = *edit;
                Ok(())
            }
            None => self.add(edit),
        }
    }

    // Puts an edit of a place of which there is none.
    fn add(&mut self, edit: &BlockEdit) -> Result<(), DirectFault>
        requires within { edit.now.place ≤ self.old.count }
        requires none { IsUnedited edit.now.place self.old.items.items }
        requires block { IsBlock edit.now.block }
        ensures first { self.new.first ≡ self.old.first }
        ensures count { OnOk result (self.new.count ≡ max self.old.count (edit.now.place + 1)) }
        ensures pushed { OnOk result (self.new.items.items ≡ self.old.items.items ++ edit.now ∷ []) }
        ensures err { IfErr result IsOtherFault }
    {
        push_found(&mut self.places, &mut self.items, edit)?;
        self.count = self.count.max(u64::from(edit.place) + 1);
        Ok(())
    }

    /// The edits.
    pub(crate) fn into_items(self) -> Vec<BlockEdit>
        ensures is { result.items ≡ self.items.items }
        ensures own { HaveOwnPlaces result.items }
        ensures turn { AreInTurn self.first result.items self.count }
    {
        self.items
    }

    // The index of the edit of a place.
    fn index_of(&self, place: u32) -> Option<usize>
        ensures some { IfSome result (HasPlace self.now.items.items place) }
        ensures none { IfNone result (IsUnedited place self.now.items.items) }
    {
        let index = *self.places.get(&place)?;
        let edit = self.items.get(index)?;
        if edit.place != place {
            return None;
        }
        Some(index)
    }
}

// Puts an edit of a place of which there is none, which is found by its place then.
fn push_found(
    places: &mut BTreeMap<u32, usize>,
    items: &mut Vec<BlockEdit>,
    edit: &BlockEdit,
) -> Result<(), AllocError>
    requires none { IsUnedited edit.now.place items.old.items }
    requires found { AreFound items.old.items places.old.entries }
    ensures found { AreFound items.new.items places.new.entries }
    ensures ok { OnOk result (items.new.items ≡ items.old.items ++ edit.now ∷ []) }
    ensures err { OnErr result (items.new.items ≡ items.old.items) }
{
    places.insert(edit.place, items.len())?;
    push_item(items, *edit)?;
    Ok(())
}

// For proofs: a block is so many bytes. It changes nothing.
fn tell_bytes(block: &[u8; BLOCK_LEN])
    ensures { IsBlock block.now }
{
    let _first = block.first();
}
