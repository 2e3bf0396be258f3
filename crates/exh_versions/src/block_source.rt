ghost use Rattle.std.specs.Prelude.{◌≡◌, ◌+◌, ◌<◌, ◌^◌, ◌≤◌, ◌↔◌, length, vec_len, IfOk, OnOk, IfErr, IsErrOf, IsTrue, IsFalse};
ghost use Rattle.std.specs.Io.KnownBytes.{Consumes, IsAtEnd};
ghost use Rattle.exh_keyer.specs.Pseudokey.{any_pseudokey};
ghost use Rattle.exh_prefix.specs.Version.{second_version};
ghost use Rattle.exh_stream.specs.Source.{ReadsFrom};
ghost use Rattle.exh_codec.specs.declared.block.TheConstants.{BLOCK_LEN};
ghost use Rattle.exh_codec.specs.PageImage.{IsImage};
ghost use Rattle.exh_format.specs.declared.file_fault.FileFault.TheVariants.{Trailing, Truncated};
ghost use Rattle.exh_format.specs.FileTests.{NextFails, PageFails};
ghost use Rattle.exh_format.specs.ReadFileFault.{fault_at};
ghost use Rattle.exh_format.specs.Reading.{IsBlock, IsOf};
ghost use Rattle.exh_cells.specs.declared.places.TheConstants.{GROUP_PAGES};
ghost use Rattle.exh_cells.specs.StampedHeader.{IsStampedImage};
ghost use Rattle.exh_cells.specs.WalkImage.{IsWalkImage};
ghost use Rattle.exh_versions.specs.PlacedTests.{StampedFails, WalkFails};
ghost use Rattle.exh_versions.specs.Sources.{blocks_failed, left};

use exh_cells::{Cell, StampedHeader, decode_cells};
use exh_codec::{BLOCK_LEN, ImageFault, decode_page_of};
use exh_format::{FileFault, ReadFileFault};
use exh_keyer::AnyKeyer;
use exh_page::Page;
use exh_prefix::Version;
use exh_stream::Source;
use std::alloc::Global;
use std::io::Read;

/// The blocks of a file that is read, one after the other.
#[derive(Drop)]
pub(crate) struct BlockSource<'r, R: Read> {
    source: Source<'r, R>,
    place: u32,
}

impl<'r, R: Read> BlockSource<'r, R> {
    // The blocks that the reader has, the first of place 0. It takes no memory.
    pub(crate) fn new(reader: &'r mut R) -> BlockSource<'r, R>
        ensures reads_from { ReadsFrom result.source reader.entry }
        ensures place { result.place ≡ 0 }
        ensures open { IsFalse (blocks_failed result) }
    {
        BlockSource {
            source: Source::new(reader),
            place: 0,
        }
    }

    // The header that the first block has.
    pub(crate) fn read_header(&mut self) -> Result<StampedHeader, ReadFileFault>
        requires { self.old.place + 1 < 2 ^ 32 }
        ensures place { OnOk result (self.new.place ≡ self.old.place + 1) }
        ensures ok { IfOk result (λ header. (block : _) × Consumes (left R.remaining self.old) (left R.remaining self.new) block × IsStampedImage header block × IsBlock block) }
        ensures err { IfErr result (IsOf (NextFails StampedFails) (left R.remaining self.old)) }
        ensures failed { IsErrOf result ReadFileFault.Read ↔ IsTrue (blocks_failed self.new) }
    {
        let mut block = [0; BLOCK_LEN];
        self.fill(&mut block)?;
        match StampedHeader::from_block(&block) {
            Ok(header) => {
                self.place += 1;
                Ok(header)
            }
            Err(fault) => Err(ReadFileFault::File(fault)),
        }
    }

    // So many cells, of the next block.
    pub(crate) fn read_cells(
        &mut self,
        alloc: Global,
        count: usize,
    ) -> Result<Vec<Cell>, ReadFileFault>
        requires place { self.old.place + 1 < 2 ^ 32 }
        requires few { count ≤ GROUP_PAGES }
        ensures place { OnOk result (self.new.place ≡ self.old.place + 1) }
        ensures ok { IfOk result (λ cells. (block : _) × Consumes (left R.remaining self.old) (left R.remaining self.new) block × IsWalkImage cells.items block × IsBlock block) }
        ensures count { IfOk result (λ cells. vec_len cells ≡ count) }
        ensures err { IfErr result (IsOf (NextFails (WalkFails self.old.place count)) (left R.remaining self.old)) }
        ensures failed { IsErrOf result ReadFileFault.Read ↔ IsTrue (blocks_failed self.new) }
    {
        let mut block = [0; BLOCK_LEN];
        self.fill(&mut block)?;
        match decode_cells(alloc, &block, count) {
            Ok(cells) => {
                self.place += 1;
                Ok(cells)
            }
            Err(fault) => Err(at_place(self.place, fault)),
        }
    }

    // The next page, and its block.
    pub(crate) fn read_page(
        &mut self,
        alloc: Global,
        keyer: AnyKeyer,
        block: &mut [u8; BLOCK_LEN],
    ) -> Result<Page, ReadFileFault>
        requires { self.old.place + 1 < 2 ^ 32 }
        ensures place { OnOk result (self.new.place ≡ self.old.place + 1) }
        ensures read { OnOk result (Consumes (left R.remaining self.old) (left R.remaining self.new) block.new) }
        ensures image { IfOk result (λ page. IsImage second_version (any_pseudokey keyer) page block.new) }
        ensures block { OnOk result (IsBlock block.new) }
        ensures err { IfErr result (IsOf (NextFails (PageFails second_version (any_pseudokey keyer) self.old.place)) (left R.remaining self.old)) }
        ensures failed { IsErrOf result ReadFileFault.Read ↔ IsTrue (blocks_failed self.new) }
    {
        self.fill(block)?;
        match decode_page_of(alloc, Version::Second, &keyer, block) {
            Ok(page) => {
                self.place += 1;
                Ok(page)
            }
            Err(fault) => Err(at_place(self.place, fault)),
        }
    }

    // Nothing, where no byte is left.
    pub(crate) fn read_end(&mut self) -> Result<(), ReadFileFault>
        ensures ok { OnOk result (IsAtEnd (left R.remaining self.old)) }
        ensures err { IfErr result (IsOf (λ bytes fault. (0 < length bytes) × (fault ≡ Trailing)) (left R.remaining self.old)) }
        ensures failed { IsErrOf result ReadFileFault.Read ↔ IsTrue (blocks_failed self.new) }
    {
        let mut byte = [0; 1];
        if self.source.fill(&mut byte)? == 0 {
            Ok(())
        } else {
            Err(FileFault::Trailing.into())
        }
    }

    // Reads a whole block.
    fn fill(&mut self, block: &mut [u8; BLOCK_LEN]) -> Result<(), ReadFileFault>
        ensures place { self.new.place ≡ self.old.place }
        ensures ok { OnOk result (Consumes (left R.remaining self.old) (left R.remaining self.new) block.new) }
        ensures block { OnOk result (IsBlock block.new) }
        ensures err { IfErr result (IsOf (λ bytes fault. (length bytes < BLOCK_LEN) × (fault ≡ Truncated)) (left R.remaining self.old)) }
        ensures failed { IsErrOf result ReadFileFault.Read ↔ IsTrue (blocks_failed self.new) }
    {
        if self.source.fill(block)? < BLOCK_LEN {
            return Err(FileFault::Truncated.into());
        }
        tell_bytes(block);
        Ok(())
    }
}

// The fault of a block at a place whose image isn't what belongs there; want of memory isn't the file's.
fn at_place(place: u32, fault: ImageFault) -> ReadFileFault
    ensures { result ≡ fault_at place fault }
{
    match fault {
        ImageFault::Memory => ReadFileFault::Memory,
        fault => ReadFileFault::File(FileFault::Block { place, fault }),
    }
}

// For proofs: a block is so many bytes. It changes nothing.
fn tell_bytes(block: &[u8; BLOCK_LEN])
    ensures { IsBlock block.now }
{
    let _first = block.first();
}
