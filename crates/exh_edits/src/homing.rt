ghost use Rattle.std.specs.Prelude.{◌≡◌, ◌<◌, ℕ, List, Option, Some, IfOk, IfErr, MatchResult};
ghost use Rattle.exh_keyer.specs.Pseudokey.{any_pseudokey};
ghost use Rattle.exh_prefix.specs.Version.{second_version};
ghost use Rattle.exh_table.specs.Table.{TableMap};
ghost use Rattle.exh_legal.specs.Pages.{IsHome};
ghost use Rattle.exh_codec.specs.PageImage.{IsPage};
ghost use Rattle.exh_format.specs.Reading.{AreBytes};
ghost use Rattle.exh_cells.specs.LegalPlaced.{IsLegalPlacedFile};
ghost use Rattle.exh_cells.specs.PlacedFile.{PlacedFile};
ghost use Rattle.exh_cells.specs.StampedHeader.{IsStampedHeader};
ghost use Rattle.exh_direct.specs.DirectLaws.{IsOtherFault};
ghost use Rattle.exh_direct.specs.KnownBlocks.{IsCount};
ghost use Rattle.exh_edits.specs.PlacedHome.{ComesHome, FailsToHome, IsHomeIn};
ghost use Rattle.exh_edits.specs.WalkBlocks.{pages_in};

use crate::finding::is_home;
use crate::home::Home;
use crate::named::named_place;
use exh_cells::{StampedHeader, page_block};
use exh_direct::{Blocks, DirectFault, read_page};
use exh_prefix::Version;
use std::alloc::Global;

/// The page of a file of version 3, of this header and so many whole blocks, whose prefix begins a pseudokey, and its place.
/// The walk blocks are read with the cells on the pseudokey's way, and the page at its end, each once, and each is tested. It
/// takes memory for the cells of the walk blocks, and for the records of the page.
///
/// `File`: a block ends early or fails a test, the one that is met first. `Astray`: the walk goes to a page that is no place of
/// the file, or ends at one without a prefix that begins the pseudokey. `Read`: a block couldn't be read. `Memory`: a growth
/// was refused.
pub fn find_home<B: Blocks>(
    alloc: Global,
    blocks: &mut B,
    count: u64,
    header: &StampedHeader,
    pseudokey: u64,
) -> Result<Home, DirectFault>
    requires count { IsCount (B.known blocks.old) count }
    requires header { IsStampedHeader header.now }
    ensures same_bytes { B.known blocks.new ≡ B.known blocks.old }
    ensures place { IfOk result (λ home. home.place < pages_in header.now) }
    ensures valid { IfOk result (λ home. IsPage second_version (any_pseudokey header.now.settings.keyer) home.page) }
    ensures home { IfOk result (λ home. IsHome home.page pseudokey) }
    ensures legal { (file : PlacedFile) (tables : List TableMap) (bytes : List ℕ) → B.known blocks.old ≡ Some bytes → AreBytes bytes → IsLegalPlacedFile file tables bytes → file.header ≡ header.now
        → MatchResult result (IsHomeIn file pseudokey) IsOtherFault }
{
    exh_codec::one_page();
    exh_codec::images_pass();
    exh_codec::images_are_blocks();
    exh_cells::stamped_headers_pass();
    exh_cells::walk_blocks_pass();
    exh_cells::slots_are_entries();
    exh_legal::walks_name_homes();
    come_home(alloc, blocks, count, header, pseudokey)
}

// The same, told of what was read alone.
fn come_home<B: Blocks>(
    alloc: Global,
    blocks: &mut B,
    count: u64,
    header: &StampedHeader,
    pseudokey: u64,
) -> Result<Home, DirectFault>
    requires count { IsCount (B.known blocks.old) count }
    requires header { IsStampedHeader header.now }
    ensures same_bytes { B.known blocks.new ≡ B.known blocks.old }
    ensures ok { IfOk result (ComesHome (B.known blocks.old) header.now pseudokey (B.reads blocks.old)) }
    ensures err { IfErr result (FailsToHome (B.known blocks.old) header.now pseudokey (B.reads blocks.old) (B.reads blocks.new)) }
{
    let place = named_place(alloc, blocks, count, header, pseudokey)?;
    let page = read_page(
        alloc,
        blocks,
        Version::Second,
        count,
        page_block(place),
        header.settings.keyer,
    )?;
    if !is_home(&page, pseudokey) {
        return Err(DirectFault::Astray);
    }
    Ok(Home { place, page })
}
