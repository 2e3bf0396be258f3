ghost use Rattle.std.specs.Prelude.{◌≡◌, ◌*◌, ◌^◌, ◌<◌, ◌≤◌, ◌↔◌, List, ℕ, Some, IfOk, IfErr, IsErrOf, IsFalse, IsTrue, MatchResult};
ghost use Rattle.std.specs.List.{sum};
ghost use Rattle.exh_prefix.specs.declared.prefix.TheConstants.{LIMIT};
ghost use Rattle.exh_format.specs.Reading.{AreBytes, IsOf, IsOther};
ghost use Rattle.exh_cells.specs.PlacedFile.{IsPlacedFile, PlacedFile};
ghost use Rattle.exh_cells.specs.StampedHeader.{IsStampedHeader};
ghost use Rattle.exh_versions.specs.PlacedParts.{ArePartsOf, AreTaking, IsReadFrom};
ghost use Rattle.exh_versions.specs.PlacedTests.{IsPlacedFault};
ghost use Rattle.exh_versions.specs.Sources.{blocks_failed, left};

use crate::block_source::BlockSource;
use crate::placed_pages::PlacedPages;
use crate::read_groups::read_groups;
use crate::{PlacedParts, one_placed_file, placed_files_pass};
use exh_cells::StampedHeader;
use exh_codec::ReadPages;
use exh_format::ReadFileFault;
use exh_keyer::AnyKeyer;
use std::alloc::Global;
use std::io::Read;

/// Reads a page file of version 3, of which the reader has all bytes and no others, its pages into what the caller
/// names. A block takes at most 4,097 reads. It takes memory for what was read, never for what a header claims.
///
/// `File`: the bytes aren't one; the fault is that of the first test that they fail. `Read`: the reader failed.
/// `Memory`: a growth was refused. The one met first counts.
pub fn read_placed<R: Read, W: ReadPages<AnyKeyer>>(
    alloc: Global,
    reader: &mut R,
) -> Result<PlacedParts<W>, ReadFileFault>
    ensures parts { IfOk result (IsReadFrom W.pages (R.remaining reader.old)) }
    ensures takes { IfOk result (AreTaking W.takes) }
    ensures fault { IfErr result (IsOf IsPlacedFault (R.remaining reader.old)) }
    ensures every { (file : PlacedFile) (bytes : List ℕ) → R.remaining reader.old ≡ Some bytes → AreBytes bytes → IsPlacedFile file bytes
        → MatchResult result (ArePartsOf W.pages file) IsOther }
{
    one_placed_file();
    placed_files_pass();
    read_parts(alloc, &mut BlockSource::new(reader))
}

// The parts that the blocks of a file say.
fn read_parts<R: Read, W: ReadPages<AnyKeyer>>(
    alloc: Global,
    blocks: &mut BlockSource<'_, R>,
) -> Result<PlacedParts<W>, ReadFileFault>
    requires place { blocks.old.place ≡ 0 }
    requires open { IsFalse (blocks_failed blocks.old) }
    ensures parts { IfOk result (IsReadFrom W.pages (left R.remaining blocks.old)) }
    ensures takes { IfOk result (AreTaking W.takes) }
    ensures fault { IfErr result (IsOf IsPlacedFault (left R.remaining blocks.old)) }
    ensures failed { IsErrOf result ReadFileFault.Read ↔ IsTrue (blocks_failed blocks.new) }
{
    exh_codec::images_pass();
    exh_codec::images_are_blocks();
    exh_cells::walk_blocks_pass();
    let header = blocks.read_header()?;
    let count = page_count(&header);
    let mut pages = PlacedPages::empty(alloc, header.settings)?;
    let cells = read_groups(alloc, blocks, header.settings, &mut pages, count)?;
    blocks.read_end()?;
    Ok(PlacedParts {
        header,
        wards: pages.wards,
        lows: pages.lows,
        cells,
    })
}

// How many pages a header counts.
fn page_count(header: &StampedHeader) -> usize
    requires { IsStampedHeader header.now }
    ensures count { result ≡ sum header.now.page_counts }
    ensures few { result ≤ 16 * 2 ^ LIMIT }
{
    total(&header.page_counts) as usize
}

fn total(counts: &[u32]) -> u32
    requires { sum counts.now < 2 ^ 32 }
    ensures { result ≡ sum counts.now }
{
    counts.iter().sum()
}
