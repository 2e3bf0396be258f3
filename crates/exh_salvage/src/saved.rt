//! What is saved of one block.
ghost use Rattle.std.specs.Prelude.{◌≡◌, None, IfOk, IfSome, IfNone};
ghost use Rattle.exh_prefix.specs.Layout.{written_version};
ghost use Rattle.exh_keyer.specs.Pseudokey.{any_pseudokey};
ghost use Rattle.exh_page.specs.declared.page.Page.{Page as PageType};
ghost use Rattle.exh_codec.specs.Block.{IsSealed};
ghost use Rattle.exh_codec.specs.PageImage.{IsImage};
ghost use Rattle.exh_salvage.specs.SavedBlock.{IsOfBlock, IsSavedAs};

use exh_codec::{BLOCK_LEN, ImageFault, decode_content, images_are_sealed, is_sealed};
use exh_keyer::AnyKeyer;
use exh_page::Page;
use exh_prefix::WRITTEN;
use std::alloc::{AllocError, Global};

/// What a block is to a salvage.
#[derive(Drop)]
pub enum Saved {
    /// The image of this page, under one of the keyers.
    Page(Page),
    /// No image of a page, with the digest of its content: a header, a part of a table, or walks.
    Other,
    /// Its digest isn't that of its content.
    Lost,
}

/// What a block is to a salvage, under whichever keyer it was made, in whichever version. It takes memory for the page's
/// records: an `AllocError` where that is refused.
pub fn saved_of(alloc: Global, block: &[u8; BLOCK_LEN]) -> Result<Saved, AllocError>
    ensures { IfOk result (IsSavedAs block.now) }
{
    if !is_sealed(block) {
        return Ok(Saved::Lost);
    }
    if let Some(page) = page_under(alloc, AnyKeyer::Sha, block)? {
        return Ok(Saved::Page(page));
    }
    match page_under(alloc, AnyKeyer::Plain, block)? {
        Some(page) => Ok(Saved::Page(page)),
        None => Ok(Saved::Other),
    }
}

// The page of which a sealed block is the image under a keyer, `None` where it is that of none.
fn page_under(
    alloc: Global,
    keyer: AnyKeyer,
    block: &[u8; BLOCK_LEN],
) -> Result<Option<Page>, AllocError>
    requires { IsSealed block.now }
    ensures some { IfOk result (λ found. IfSome found (λ page. IsImage written_version (any_pseudokey keyer) page block.now)) }
    ensures none { IfOk result (λ found. IfNone found ((page : PageType) → IsImage written_version (any_pseudokey keyer) page block.now → ⊥)) }
{
    images_are_sealed();
    match decode_content(alloc, WRITTEN, &keyer, block) {
        Ok(page) => Ok(Some(page)),
        Err(fault) => none_by(fault),
    }
}

// None by a fault of the block.
fn none_by(fault: ImageFault) -> Result<Option<Page>, AllocError>
    ensures { IfOk result (λ found. (found ≡ None) × IsOfBlock fault) }
{
    match fault {
        ImageFault::Memory => Err(AllocError),
        ImageFault::Kind
        | ImageFault::Length
        | ImageFault::Order
        | ImageFault::Padding
        | ImageFault::Digest
        | ImageFault::Prefix => Ok(None),
    }
}
