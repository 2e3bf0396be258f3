ghost use Rattle.std.specs.Prelude.{◌≡◌, ◌↔◌, ℕ, List, Some, IsTrue, IfOk, IfErr, MatchResult};
ghost use Rattle.exh_table.specs.Table.{TableMap};
ghost use Rattle.exh_legal.specs.Pages.{IsHome};
ghost use Rattle.exh_format.specs.Reading.{AreBytes};
ghost use Rattle.exh_cells.specs.LegalPlaced.{IsLegalPlacedFile};
ghost use Rattle.exh_cells.specs.PlacedFile.{PlacedFile};
ghost use Rattle.exh_direct.specs.DirectLaws.{IsOtherFault};
ghost use Rattle.exh_direct.specs.KnownBlocks.{BehindHeader, IsBlockAt, IsCount};
ghost use Rattle.exh_edits.specs.PlacedAnswer.{FindsPlaced, ReadsFew, RefusesPlaced};
ghost use Rattle.exh_edits.specs.PlacedLaws.{FindsInPlaced};

use crate::named::named_place;
use exh_cells::{StampedHeader, page_block};
use exh_codec::BLOCK_LEN;
use exh_direct::{Blocks, DirectFault, read_page};
use exh_keyer::Keyer;
use exh_page::{Key, Page, Value};
use exh_prefix::Version;
use std::alloc::Global;

/// What a page file of version 3, of so many whole blocks, has at a key, `None` where it hasn't the key. The block of its
/// header was read before. Of the others the walk blocks are read with the cells on the way of the key's pseudokey, and the
/// page at its end: with the header at most 22 blocks, and none twice. Each is tested. It takes memory for the cells of the
/// walk blocks that it reads, and for the records of the page.
///
/// `File`: a block ends early or fails a test, the one that is met first, and the header's before the others. `Astray`: the
/// walk goes to a page that is no place of the file, or ends at one without a prefix that begins the pseudokey, which tells
/// that the file isn't legal. `Read`: a block couldn't be read. `Memory`: a growth was refused. That the blocks that aren't
/// read pass their tests, that the file is legal, and that it ends behind its last page, isn't asked.
pub fn find_placed<B: Blocks>(
    alloc: Global,
    blocks: &mut B,
    count: u64,
    first: &[u8; BLOCK_LEN],
    key: &Key,
) -> Result<Option<Value>, DirectFault>
    requires count { IsCount (B.known blocks.old) count }
    requires first { IsBlockAt (B.known blocks.old) 0 first.now }
    ensures found { BehindHeader (B.reads blocks.old) (λ before. IfOk result (FindsPlaced (B.known blocks.old) key.now before (B.reads blocks.new))) }
    ensures refused { BehindHeader (B.reads blocks.old) (λ before. IfErr result (RefusesPlaced (B.known blocks.old) key.now before (B.reads blocks.new))) }
    ensures few { BehindHeader (B.reads blocks.old) (λ before. ReadsFew before (B.reads blocks.new)) }
    ensures legal { BehindHeader (B.reads blocks.old) (λ before. (file : PlacedFile) (tables : List TableMap) (bytes : List ℕ) → B.known blocks.old ≡ Some bytes → AreBytes bytes → IsLegalPlacedFile file tables bytes
        → MatchResult result (FindsInPlaced file key.now before (B.reads blocks.new)) IsOtherFault) }
{
    exh_codec::one_page();
    exh_codec::images_pass();
    exh_codec::images_are_blocks();
    exh_cells::stamped_headers_pass();
    exh_cells::walk_blocks_pass();
    exh_cells::slots_are_entries();
    exh_legal::walks_name_homes();
    find_on_way(alloc, blocks, count, first, key)
}

// The same, told of what was read alone.
fn find_on_way<B: Blocks>(
    alloc: Global,
    blocks: &mut B,
    count: u64,
    first: &[u8; BLOCK_LEN],
    key: &Key,
) -> Result<Option<Value>, DirectFault>
    requires count { IsCount (B.known blocks.old) count }
    requires first { IsBlockAt (B.known blocks.old) 0 first.now }
    ensures found { BehindHeader (B.reads blocks.old) (λ before. IfOk result (FindsPlaced (B.known blocks.old) key.now before (B.reads blocks.new))) }
    ensures refused { BehindHeader (B.reads blocks.old) (λ before. IfErr result (RefusesPlaced (B.known blocks.old) key.now before (B.reads blocks.new))) }
{
    let header = StampedHeader::from_block(first)?;
    let keyer = header.settings.keyer;
    let pseudokey = keyer.pseudo(key.as_bytes());
    let place = named_place(alloc, blocks, count, &header, pseudokey)?;
    let page = read_page(
        alloc,
        blocks,
        Version::Second,
        count,
        page_block(place),
        keyer,
    )?;
    if !is_home(&page, pseudokey) {
        return Err(DirectFault::Astray);
    }
    Ok(page.find(pseudokey, key))
}

/// Whether a page is live and its prefix begins a pseudokey.
pub(crate) fn is_home(page: &Page, pseudokey: u64) -> bool
    ensures { IsTrue result ↔ IsHome page.now pseudokey }
{
    match page {
        Page::Live { prefix, .. } => prefix.begins(pseudokey),
        Page::Forward { .. } => false,
    }
}
