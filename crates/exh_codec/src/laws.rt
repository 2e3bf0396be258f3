//! What holds of all images, for the proofs of callers. Each function does nothing.

ghost use Rattle.std.specs.Prelude.{◌≤◌, ◌+◌, ◌*◌};
ghost use Rattle.exh_page.specs.declared.key.TheConstants.{KEY_LIMIT};
ghost use Rattle.exh_page.specs.declared.page.TheConstants.{CAP_LIMIT};
ghost use Rattle.exh_page.specs.declared.value.TheConstants.{VALUE_LIMIT};
ghost use Rattle.exh_codec.specs.declared.block.TheConstants.{CONTENT_LEN};
ghost use Rattle.exh_codec.specs.declared.head.TheConstants.{HEAD_LEN};
ghost use Rattle.exh_codec.specs.CodecLaws.{BlocksAreRead, OneImage, OnePage, ImagesAreBlocks, ImagesAreSealed, ImagesPass};

/// A page of the most records, each of the greatest key and value, fits into a block's content.
pub fn greatest_pages_fit()
    ensures { HEAD_LEN + CAP_LIMIT * (2 + KEY_LIMIT + VALUE_LIMIT) ≤ CONTENT_LEN }
{}

/// A well-formed page has exactly one image.
pub fn one_image()
    ensures { OneImage }
{}

/// An image is that of one page.
pub fn one_page()
    ensures { OnePage }
{}

/// A block is the image of a page exactly where it passes all tests.
pub fn images_pass()
    ensures { ImagesPass }
{}

/// A block is a page's image exactly where it was laid out for the page and is sealed.
pub fn images_are_sealed()
    ensures { ImagesAreSealed }
{}

/// An image has the length of a block.
pub fn images_are_blocks()
    ensures { ImagesAreBlocks }
{}

/// A block that was laid out for a page is read as that page.
pub fn blocks_are_read()
    ensures { BlocksAreRead }
{}
