ghost use Rattle.std.specs.Prelude.{◌≡◌, ◌+◌, ◌<◌, ◌^◌, ◌≤◌, ◌++◌, ◌↔◌, length, vec_len, IfOk, OnOk, IfErr, IsErrOf, IsTrue, IsFalse};
ghost use Rattle.std.specs.Option.{option_to_list};
ghost use Rattle.std.specs.Io.KnownBytes.{Consumes, IsAtEnd};
ghost use Rattle.exh_keyer.specs.Pseudokey.{any_pseudokey};
ghost use Rattle.exh_prefix.specs.Layout.{layout};
ghost use Rattle.exh_stream.specs.Source.{ReadsFrom};
ghost use Rattle.exh_codec.specs.PageImage.{IsImage};
ghost use Rattle.exh_format.specs.FileVersion.{file_version, format_of};
ghost use Rattle.exh_format.specs.HeaderImage.{IsHeaderImage};
ghost use Rattle.exh_format.specs.TableImage.{AreRising, IsTableImage, prefixes_of};
ghost use Rattle.exh_format.specs.declared.file_fault.FileFault.TheVariants.{Trailing, Truncated};
ghost use Rattle.exh_format.specs.declared.table_block.TheConstants.{BLOCK_ENTRIES};
ghost use Rattle.exh_format.specs.FileTests.{HeaderFails, NextFails, PageFails, TableFails};
ghost use Rattle.exh_format.specs.Reading.{IsBlock, IsOf, blocks_failed, left};
ghost use Rattle.exh_codec.specs.declared.block.TheConstants.{BLOCK_LEN};

use crate::{
    BLOCK_ENTRIES, FileEntry, FileFault, Header, ReadFileFault, decode_entries, version_in,
};
use exh_codec::{BLOCK_LEN, decode_page_of};
use exh_keyer::AnyKeyer;
use exh_legal::Page;
use exh_prefix::{Prefix, Version};
use exh_stream::Source;
use std::alloc::Global;
use std::io::Read;

/// The blocks of a file that is read, one after the other.
#[derive(Drop)]
pub(crate) struct BlockSource<'r, R: Read> {
    source: Source<'r, R>,
    place: u32,
}

impl<'r, R: Read> BlockSource<'r, R> {
    // The blocks that the reader has, the first of place 0. It takes no memory.
    pub(crate) fn new(reader: &'r mut R) -> BlockSource<'r, R>
        ensures reads_from { ReadsFrom result.source reader.entry }
        ensures place { result.place ≡ 0 }
        ensures open { IsFalse (blocks_failed result) }
    {
        BlockSource {
            source: Source::new(reader),
            place: 0,
        }
    }

    // The version that the first block says, and the header that the block has in it.
    pub(crate) fn read_header(&mut self) -> Result<(Version, Header), ReadFileFault>
        requires { self.old.place + 1 < 2 ^ 32 }
        ensures place { OnOk result (self.new.place ≡ self.old.place + 1) }
        ensures ok { IfOk result (λ found. (block : _) × Consumes (left R.remaining self.old) (left R.remaining self.new) block × IsHeaderImage (file_version found.0) found.1 block × IsBlock block) }
        ensures err { IfErr result (IsOf (NextFails (λ block. HeaderFails (format_of block) block)) (left R.remaining self.old)) }
        ensures failed { IsErrOf result ReadFileFault.Read ↔ IsTrue (blocks_failed self.new) }
    {
        let mut block = [0; BLOCK_LEN];
        self.fill(&mut block)?;
        let version = version_in(&block);
        match Header::from_block(version, &block) {
            Ok(header) => {
                self.place += 1;
                Ok((version, header))
            }
            Err(fault) => Err(ReadFileFault::File(fault)),
        }
    }

    // The next page, in a version, and its block.
    pub(crate) fn read_page(
        &mut self,
        alloc: Global,
        version: Version,
        keyer: AnyKeyer,
        block: &mut [u8; BLOCK_LEN],
    ) -> Result<Page, ReadFileFault>
        requires { self.old.place + 1 < 2 ^ 32 }
        ensures place { OnOk result (self.new.place ≡ self.old.place + 1) }
        ensures read { OnOk result (Consumes (left R.remaining self.old) (left R.remaining self.new) block.new) }
        ensures image { IfOk result (λ page. IsImage (layout version) (any_pseudokey keyer) page block.new) }
        ensures block { OnOk result (IsBlock block.new) }
        ensures err { IfErr result (IsOf (NextFails (PageFails (layout version) (any_pseudokey keyer) self.old.place)) (left R.remaining self.old)) }
        ensures failed { IsErrOf result ReadFileFault.Read ↔ IsTrue (blocks_failed self.new) }
    {
        self.fill(block)?;
        match decode_page_of(alloc, version, &keyer, block) {
            Ok(page) => {
                self.place += 1;
                Ok(page)
            }
            Err(fault) => Err(ReadFileFault::at_place(self.place, fault)),
        }
    }

    // So many entries, of the next block, behind that of a prefix.
    pub(crate) fn read_entries(
        &mut self,
        alloc: Global,
        version: Version,
        count: usize,
        before: Option<Prefix>,
    ) -> Result<Vec<FileEntry>, ReadFileFault>
        requires place { self.old.place + 1 < 2 ^ 32 }
        requires few { count ≤ BLOCK_ENTRIES }
        ensures place { OnOk result (self.new.place ≡ self.old.place + 1) }
        ensures ok { IfOk result (λ entries. (block : _) × Consumes (left R.remaining self.old) (left R.remaining self.new) block × IsTableImage (layout version) entries.items block × IsBlock block) }
        ensures count { IfOk result (λ entries. vec_len entries ≡ count) }
        ensures rising { IfOk result (λ entries. AreRising (option_to_list before ++ prefixes_of entries.items)) }
        ensures err { IfErr result (IsOf (NextFails (TableFails (layout version) self.old.place count before)) (left R.remaining self.old)) }
        ensures failed { IsErrOf result ReadFileFault.Read ↔ IsTrue (blocks_failed self.new) }
    {
        let mut block = [0; BLOCK_LEN];
        self.fill(&mut block)?;
        match decode_entries(alloc, version, &block, count, before) {
            Ok(entries) => {
                self.place += 1;
                Ok(entries)
            }
            Err(fault) => Err(ReadFileFault::at_place(self.place, fault)),
        }
    }

    // Nothing, where no byte is left.
    pub(crate) fn read_end(&mut self) -> Result<(), ReadFileFault>
        ensures ok { OnOk result (IsAtEnd (left R.remaining self.old)) }
        ensures err { IfErr result (IsOf (λ bytes fault. (0 < length bytes) × (fault ≡ Trailing)) (left R.remaining self.old)) }
        ensures failed { IsErrOf result ReadFileFault.Read ↔ IsTrue (blocks_failed self.new) }
    {
        let mut byte = [0; 1];
        if self.source.fill(&mut byte)? == 0 {
            Ok(())
        } else {
            Err(FileFault::Trailing.into())
        }
    }

    // Reads a whole block.
    fn fill(&mut self, block: &mut [u8; BLOCK_LEN]) -> Result<(), ReadFileFault>
        ensures place { self.new.place ≡ self.old.place }
        ensures ok { OnOk result (Consumes (left R.remaining self.old) (left R.remaining self.new) block.new) }
        ensures block { OnOk result (IsBlock block.new) }
        ensures err { IfErr result (IsOf (λ bytes fault. (length bytes < BLOCK_LEN) × (fault ≡ Truncated)) (left R.remaining self.old)) }
        ensures failed { IsErrOf result ReadFileFault.Read ↔ IsTrue (blocks_failed self.new) }
    {
        if self.source.fill(block)? < BLOCK_LEN {
            return Err(FileFault::Truncated.into());
        }
        tell_bytes(block);
        Ok(())
    }
}

// For proofs: a block is so many bytes. It changes nothing.
fn tell_bytes(block: &[u8; BLOCK_LEN])
    ensures { IsBlock block.now }
{
    let _first = block.first();
}
