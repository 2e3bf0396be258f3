ghost use Rattle.std.specs.Prelude.{◌≡◌, ◌<◌, ◌≤◌, ◌^◌, ◌+◌, ◌*◌, ◌++◌, [], ◌∷◌, ℕ, List, Option, vec_len, IfOk, OnOk, IfErr};
ghost use Rattle.std.specs.List.{sum};
ghost use Rattle.std.specs.Option.{option_to_list};
ghost use Rattle.std.specs.Io.KnownBytes.{Appends};
ghost use Rattle.exh_keyer.specs.Pseudokey.{any_pseudokey};
ghost use Rattle.exh_prefix.specs.Layout.{layout};
ghost use Rattle.exh_prefix.specs.declared.prefix.TheConstants.{LIMIT};
ghost use Rattle.exh_format.specs.HeaderImage.{IsHeaderImage, IsKnownHeader};
ghost use Rattle.exh_direct.specs.TableSearch.{table_place};
ghost use Rattle.exh_format.specs.FileVersion.{file_version, format_of};
ghost use Rattle.exh_format.specs.TableImage.{AreRising, prefixes_of};
ghost use Rattle.exh_format.specs.declared.table_block.TheConstants.{BLOCK_ENTRIES};
ghost use Rattle.exh_format.specs.FileTests.{HeaderFails, PageFails, TableFails};
ghost use Rattle.exh_direct.specs.KnownBlocks.{BlockFails, IsBlockAt, IsCount, IsCutOff, IsPageBlock, IsTableBlock, MayRead};

use crate::{Blocks, DirectFault};
use exh_codec::{BLOCK_LEN, decode_page_of};
use exh_format::{FileEntry, FileFault, Header, decode_entries, version_in};
use exh_keyer::AnyKeyer;
use exh_page::Page;
use exh_prefix::{Prefix, Version};
use std::alloc::Global;

/// The version that a header's block says, and the header that it has in it.
///
/// `File`: the first test of a header that the block fails.
pub(crate) fn header_in(block: &[u8; BLOCK_LEN]) -> Result<(Version, Header), DirectFault>
    ensures ok { IfOk result (λ found. IsHeaderImage (file_version found.0) found.1 block.now) }
    ensures err { (known : Option (List ℕ)) → IsBlockAt known 0 block.now → IfErr result (BlockFails (λ block. HeaderFails (format_of block) block) known 0) }
{
    let version = version_in(block);
    match Header::from_block(version, block) {
        Ok(header) => Ok((version, header)),
        Err(fault) => Err(DirectFault::File(fault)),
    }
}

/// So many entries in a version, of the block at a place, behind that of a prefix.
pub(crate) fn read_entries<B: Blocks>(
    alloc: Global,
    blocks: &mut B,
    version: Version,
    count: u64,
    place: u32,
    entries: usize,
    before: Option<Prefix>,
) -> Result<Vec<FileEntry>, DirectFault>
    requires count { IsCount (B.known blocks.old) count }
    requires few { entries ≤ BLOCK_ENTRIES }
    ensures same_bytes { B.known blocks.new ≡ B.known blocks.old }
    ensures may_read { MayRead (B.reads blocks.old) (B.reads blocks.new) place }
    ensures one_read { OnOk result (Appends (B.reads blocks.old) (B.reads blocks.new) (place ∷ [])) }
    ensures ok { IfOk result (λ found. IsTableBlock (layout version) (B.known blocks.old) place found.items) }
    ensures count { IfOk result (λ found. vec_len found ≡ entries) }
    ensures rising { IfOk result (λ found. AreRising (option_to_list before ++ prefixes_of found.items)) }
    ensures err { IfErr result (BlockFails (TableFails (layout version) place entries before) (B.known blocks.old) place) }
{
    let mut block = [0; BLOCK_LEN];
    read_block(blocks, count, place, &mut block)?;
    match decode_entries(alloc, version, &block, entries, before) {
        Ok(found) => Ok(found),
        Err(fault) => Err(DirectFault::at_place(place, fault)),
    }
}

/// The page at a place in a version, under a keyer, of so many whole blocks. It takes memory for the page's records.
///
/// `File`: the block ends early or fails a test of a page. `Read`: it couldn't be read. `Memory`: a growth was refused.
pub fn read_page<B: Blocks>(
    alloc: Global,
    blocks: &mut B,
    version: Version,
    count: u64,
    place: u32,
    keyer: AnyKeyer,
) -> Result<Page, DirectFault>
    requires { IsCount (B.known blocks.old) count }
    ensures same_bytes { B.known blocks.new ≡ B.known blocks.old }
    ensures may_read { MayRead (B.reads blocks.old) (B.reads blocks.new) place }
    ensures one_read { OnOk result (Appends (B.reads blocks.old) (B.reads blocks.new) (place ∷ [])) }
    ensures ok { IfOk result (IsPageBlock (layout version) (any_pseudokey keyer) (B.known blocks.old) place) }
    ensures err { IfErr result (BlockFails (PageFails (layout version) (any_pseudokey keyer) place) (B.known blocks.old) place) }
{
    let mut block = [0; BLOCK_LEN];
    read_block(blocks, count, place, &mut block)?;
    match decode_page_of(alloc, version, &keyer, &block) {
        Ok(page) => Ok(page),
        Err(fault) => Err(DirectFault::at_place(place, fault)),
    }
}

/// Reads the block at a place, of so many whole blocks. It takes no memory.
///
/// `File`: the block ends early. `Read`: it couldn't be read.
pub fn read_block<B: Blocks>(
    blocks: &mut B,
    count: u64,
    place: u32,
    block: &mut [u8; BLOCK_LEN],
) -> Result<(), DirectFault>
    requires { IsCount (B.known blocks.old) count }
    ensures same_bytes { B.known blocks.new ≡ B.known blocks.old }
    ensures same_count { B.whole blocks.new ≡ B.whole blocks.old }
    ensures may_read { MayRead (B.reads blocks.old) (B.reads blocks.new) place }
    ensures one_read { OnOk result (Appends (B.reads blocks.old) (B.reads blocks.new) (place ∷ [])) }
    ensures block { OnOk result (IsBlockAt (B.known blocks.old) place block.new) }
    ensures err { IfErr result (IsCutOff (B.known blocks.old) place) }
{
    if u64::from(place) >= count {
        return Err(DirectFault::File(FileFault::Truncated));
    }
    match blocks.read(place, block) {
        Ok(()) => Ok(()),
        Err(_) => Err(DirectFault::Read),
    }
}

/// Where the table begins: behind the header and all pages.
pub(crate) fn table_place(header: &Header) -> u32
    requires { IsKnownHeader header.now }
    ensures place { result ≡ table_place header.now }
    ensures few { result ≤ 16 * 2 ^ LIMIT + 1 }
{
    1 + total(&header.page_counts)
}

/// How many pages so many wards have.
pub(crate) fn total(counts: &[u32]) -> u32
    requires { sum counts.now < 2 ^ 32 }
    ensures { result ≡ sum counts.now }
{
    counts.iter().sum()
}
