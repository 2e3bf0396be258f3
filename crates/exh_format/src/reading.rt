ghost use Rattle.std.specs.Prelude.{◌≡◌, ◌^◌, ◌≤◌, ◌↔◌, List, ℕ, Some, IfOk, IfErr, IsErrOf, IsFalse, IsTrue, MatchResult};
ghost use Rattle.exh_format.specs.FileVersion.{format_of};
ghost use Rattle.exh_format.specs.declared.header.TheConstants.{COUNTS_LEN};
ghost use Rattle.exh_format.specs.FileParts.{AreTaking, file_of, file_read};
ghost use Rattle.exh_format.specs.FileTests.{IsFault};
ghost use Rattle.exh_format.specs.PageFile.{IsPageFile, PageFile};
ghost use Rattle.exh_format.specs.Reading.{AreBytes, IsAll, IsOf, IsOther, blocks_failed, left};

use crate::block_source::BlockSource;
use crate::read_pages::read_wards;
use crate::read_table::read_table;
use crate::{FileParts, Header, ReadFileFault, files_pass, one_file};
use exh_codec::ReadPages;
use exh_keyer::AnyKeyer;
use exh_legal::Page;
use std::alloc::Global;
use std::io::Read;

/// Reads a page file, as `read_file_into` does, its pages as lists of decoded pages.
pub fn read_file<R: Read>(
    alloc: Global,
    reader: &mut R,
) -> Result<FileParts<Vec<Page>>, ReadFileFault>
    ensures parts { IfOk result (λ parts. (bytes : List ℕ) × IsAll (R.remaining reader.old) bytes × AreBytes bytes × IsPageFile (format_of bytes) (file_of parts) bytes) }
    ensures fault { IfErr result (IsOf IsFault (R.remaining reader.old)) }
    ensures every { (file : PageFile) (bytes : List ℕ) → R.remaining reader.old ≡ Some bytes → AreBytes bytes → IsPageFile (format_of bytes) file bytes
        → MatchResult result (λ parts. file_of parts ≡ file) IsOther }
{
    read_file_into(alloc, reader)
}

/// Reads a page file of either version, of which the reader has all bytes and no others, its pages into
/// what the caller names. A block takes at most 4,097 reads. It takes memory for what was read, never for
/// what a header claims.
///
/// `File`: the bytes aren't one; the fault is that of the first test that they fail. `Read`: the reader
/// failed. `Memory`: a growth was refused. The one met first counts.
pub fn read_file_into<R: Read, W: ReadPages<AnyKeyer>>(
    alloc: Global,
    reader: &mut R,
) -> Result<FileParts<W>, ReadFileFault>
    ensures parts { IfOk result (λ parts. (bytes : List ℕ) × IsAll (R.remaining reader.old) bytes × AreBytes bytes × IsPageFile (format_of bytes) (file_read W.pages parts) bytes) }
    ensures takes { IfOk result (AreTaking W.takes) }
    ensures fault { IfErr result (IsOf IsFault (R.remaining reader.old)) }
    ensures every { (file : PageFile) (bytes : List ℕ) → R.remaining reader.old ≡ Some bytes → AreBytes bytes → IsPageFile (format_of bytes) file bytes
        → MatchResult result (λ parts. file_read W.pages parts ≡ file) IsOther }
{
    one_file();
    files_pass();
    read_parts(alloc, &mut BlockSource::new(reader))
}

// The parts that the blocks of a file say.
fn read_parts<R: Read, W: ReadPages<AnyKeyer>>(
    alloc: Global,
    blocks: &mut BlockSource<'_, R>,
) -> Result<FileParts<W>, ReadFileFault>
    requires place { blocks.old.place ≡ 0 }
    requires open { IsFalse (blocks_failed blocks.old) }
    ensures parts { IfOk result (λ parts. (bytes : List ℕ) × IsAll (left R.remaining blocks.old) bytes × AreBytes bytes × IsPageFile (format_of bytes) (file_read W.pages parts) bytes) }
    ensures takes { IfOk result (AreTaking W.takes) }
    ensures fault { IfErr result (IsOf IsFault (left R.remaining blocks.old)) }
    ensures failed { IsErrOf result ReadFileFault.Read ↔ IsTrue (blocks_failed blocks.new) }
{
    exh_codec::images_pass();
    exh_codec::images_are_blocks();
    crate::images_pass();
    crate::images_are_blocks();
    let (version, header) = blocks.read_header()?;
    let counts = &header.page_counts[..wards_of(&header)];
    let wards = read_wards(alloc, blocks, version, header.settings.keyer, counts)?;
    let entries = read_table(alloc, blocks, version, header.entry_count as usize)?;
    blocks.read_end()?;
    Ok(FileParts {
        header,
        wards,
        entries,
    })
}

// How many wards a file has.
fn wards_of(header: &Header) -> usize
    requires { 2 ^ header.now.settings.ward_bits ≤ COUNTS_LEN }
    ensures power { result ≡ 2 ^ header.now.settings.ward_bits }
    ensures few { result ≤ 16 }
{
    1 << header.settings.ward_bits
}
