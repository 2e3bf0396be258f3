ghost use Rattle.std.specs.Prelude.{◌≡◌, ◌+◌, ◌/◌, ◌≤◌, ℕ, List, [], Some, length, max, IfErr, IfOk, MatchResult, OnOk};
ghost use Rattle.std.specs.Option.{option_map};
ghost use Rattle.std.specs.List.{AllByRecursion};
ghost use Rattle.exh_codec.specs.declared.block.TheConstants.{BLOCK_LEN};
ghost use Rattle.exh_format.specs.Reading.{IsBlock};
ghost use Rattle.exh_cells.specs.PlacedFile.{IsPlacedFile, PlacedFile, stamped_block};
ghost use Rattle.exh_cells.specs.StampedHeader.{IsStampedHeader};
ghost use Rattle.exh_direct.specs.DirectLaws.{IsOtherFault};
ghost use Rattle.exh_direct.specs.KnownBlocks.{IsCount};
ghost use Rattle.exh_edits.specs.BlockEdits.{with_block, with_edits};
ghost use Rattle.exh_edits.specs.EditLists.{HaveOwnPlaces};
ghost use Rattle.exh_edits.specs.EditsInTurn.{AreInTurn};
ghost use Rattle.std.proofs.Props.{props};

use crate::edit_index::EditIndex;
use crate::under::Under;
use exh_cells::StampedHeader;
use exh_codec::BLOCK_LEN;
use exh_direct::{Blocks, DirectFault, read_block};
use exh_edits::{BlockEdit, blocks_stand, edit_lists_stand, edited_blocks_stand, header_image};
use std::alloc::Global;
use std::io;
use std::marker::PhantomData;

/// The blocks of a file with edits of them.
#[derive(Drop)]
pub(crate) struct Overlay<'b, B: Blocks, K: Under> {
    under: &'b mut B,
    pub(crate) edits: EditIndex,
    of: PhantomData<K>,
    ghost same: { B.known under.now ≡ K.known } by { Prim.hlevel props },
    ghost counted: { IsCount K.known edits.first } by { Prim.hlevel props },
}

impl<'b, B: Blocks, K: Under> Overlay<'b, B, K> {
    ghost use Rattle.exh_change.specs.Overlay.{shown};

    /// The blocks of a file without edits. It takes no memory.
    pub(crate) fn new(alloc: Global, under: &'b mut B) -> Overlay<'b, B, K>
        requires { B.known under.old ≡ K.known }
        ensures { result.edits.items.items ≡ [] }
    {
        let count = under.count();
        Overlay {
            under,
            edits: EditIndex::new(alloc, count),
            of: PhantomData,
        }
    }

    /// The header, of which nothing is asked but that its block is one.
    pub(crate) fn header(&mut self) -> Result<StampedHeader, DirectFault>
        ensures same_bytes { shown K.known self.new.edits.items.items ≡ shown K.known self.old.edits.items.items }
        ensures valid { IfOk result IsStampedHeader }
        ensures legal { (file : PlacedFile) (bytes : List ℕ) → shown K.known self.old.edits.items.items ≡ Some bytes → IsPlacedFile file bytes → MatchResult result (λ header. header ≡ file.header) IsOtherFault }
    {
        blocks_stand();
        let mut block = [0; BLOCK_LEN];
        let count = Blocks::count(self);
        read_block(self, count, 0, &mut block)?;
        let header = StampedHeader::from_block(&block)?;
        Ok(header)
    }

    /// Gives it another header.
    pub(crate) fn put_header(&mut self, header: &StampedHeader) -> Result<(), DirectFault>
        requires { IsStampedHeader header.now }
        ensures made { OnOk result (shown K.known self.new.edits.items.items ≡ option_map (with_block 0 (stamped_block header.now)) (shown K.known self.old.edits.items.items)) }
        ensures err { IfErr result IsOtherFault }
    {
        self.put(&BlockEdit {
            place: 0,
            block: header_image(header),
        })
    }

    /// Makes some edits, the first of which is made first.
    ///
    /// `Astray`: the place of one is behind the end of the file. `Memory`: a growth was refused.
    pub(crate) fn put_all(&mut self, edits: &[BlockEdit]) -> Result<(), DirectFault>
        ensures made { OnOk result (shown K.known self.new.edits.items.items ≡ option_map (with_edits edits.now) (shown K.known self.old.edits.items.items)) }
        ensures blocks { OnOk result (AllByRecursion (λ edit. IsBlock edit.block) edits.now) }
        ensures err { IfErr result (λ fault. (count : ℕ) → AreInTurn self.old.edits.count edits.now count → IsOtherFault fault) }
    {
        for edit in edits {
            self.put(edit)?;
        }
        Ok(())
    }

    // Makes an edit.
    fn put(&mut self, edit: &BlockEdit) -> Result<(), DirectFault>
        ensures made { OnOk result (shown K.known self.new.edits.items.items ≡ option_map (with_block edit.now.place edit.now.block) (shown K.known self.old.edits.items.items)) }
        ensures count { OnOk result (self.new.edits.count ≡ max self.old.edits.count (edit.now.place + 1)) }
        ensures block { OnOk result (IsBlock edit.now.block) }
        ensures err { IfErr result (λ fault. edit.now.place ≤ self.old.edits.count → IsOtherFault fault) }
    {
        edited_blocks_stand();
        edit_lists_stand();
        self.edits.put(edit)
    }

    /// The edits, at most one of a place, each of a block that is there by then, or of the next one.
    pub(crate) fn into_edits(self) -> Vec<BlockEdit>
        ensures is { result.items ≡ self.entry.edits.items.items }
        ensures own { HaveOwnPlaces result.items }
        ensures turn { (bytes : List ℕ) → K.known ≡ Some bytes → (count : ℕ) × AreInTurn (length bytes / BLOCK_LEN) result.items count }
    {
        self.edits.into_items()
    }
}

impl<B: Blocks, K: Under> Blocks for Overlay<'_, B, K> {
    ghost use Rattle.std.specs.Prelude.{None};
    ghost use Rattle.exh_change.specs.Overlay.{shown};

    ghost known = { λ overlay. shown K.known overlay.edits.items.items };

    ghost reads = { λ _. None };

    ghost whole = { λ overlay. overlay.edits.count };

    fn count(&self) -> u64 {
        edited_blocks_stand();
        self.edits.count
    }

    fn read(&mut self, place: u32, block: &mut [u8; BLOCK_LEN]) -> io::Result<()> {
        edited_blocks_stand();
        edit_lists_stand();
        match self.edits.block_at(place) {
            Some(found) => {
                *block = found;
                Ok(())
            }
            None => self.under.read(place, block),
        }
    }
}
