//! The blocks that stand for what a file has.
ghost use Rattle.std.specs.Prelude.{◌≡◌, ◌≤◌, length};
ghost use Rattle.exh_keyer.specs.Pseudokey.{any_pseudokey};
ghost use Rattle.exh_prefix.specs.Version.{second_version};
ghost use Rattle.exh_page.specs.Page.{IsWellFormed};
ghost use Rattle.exh_codec.specs.PageImage.{IsPage};
ghost use Rattle.exh_cells.specs.PageFile.{page_block};
ghost use Rattle.exh_cells.specs.declared.places.TheConstants.{GROUP_PAGES};
ghost use Rattle.exh_cells.specs.PlacedFile.{stamped_block, walk_block};
ghost use Rattle.exh_cells.specs.StampedHeader.{IsStampedHeader};

use exh_cells::{Cell, StampedHeader, encode_cells};
use exh_codec::{BLOCK_LEN, encode_page};
use exh_keyer::AnyKeyer;
use exh_page::Page;

/// The block of a page. It takes no memory.
#[tactic(auto, unfolding(exh_format::specs::PageFile::page_block))]
pub fn page_image(keyer: AnyKeyer, page: &Page) -> [u8; BLOCK_LEN]
    requires { IsWellFormed (any_pseudokey keyer) page.now }
    ensures is { result ≡ page_block page.now }
    // The types of a page hold no others.
    ensures valid { IsPage second_version (any_pseudokey keyer) page.now }
{
    encode_page(&keyer, page)
}

/// The block of a header. It takes no memory.
#[tactic(auto, unfolding(exh_cells::specs::PlacedFile::stamped_block))]
pub fn header_image(header: &StampedHeader) -> [u8; BLOCK_LEN]
    requires { IsStampedHeader header.now }
    ensures { result ≡ stamped_block header.now }
{
    header.to_block()
}

/// The walk block of some cells. It takes no memory.
#[tactic(auto, unfolding(exh_cells::specs::PlacedFile::walk_block))]
pub fn walk_image(cells: &[Cell]) -> [u8; BLOCK_LEN]
    requires { length cells.now ≤ GROUP_PAGES }
    ensures { result ≡ walk_block cells.now }
{
    encode_cells(cells)
}
