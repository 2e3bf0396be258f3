//! What holds of all header and table blocks, for the proofs of callers. Each function does nothing.

ghost use Rattle.exh_format.specs.BlockLaws.{HeadersAreBlocks, HeadersPass, OneHeader, OneHeaderImage, OneTable, OneTableImage, TablesAreBlocks, TablesPass};

/// In every version of the page file a header that a file may have has exactly one image, and so have
/// at most 254 entries that a file may have.
pub fn one_block_image()
    ensures headers { OneHeaderImage }
    ensures tables { OneTableImage }
{}

/// In every version that fits an image is that of one header, or of one list of entries.
pub fn one_value()
    ensures headers { OneHeader }
    ensures tables { OneTable }
{}

/// In every version that fits a block is an image exactly where it passes all tests.
pub fn images_pass()
    ensures headers { HeadersPass }
    ensures tables { TablesPass }
{}

/// An image has the length of a block, that of entries in every version that fits.
pub fn images_are_blocks()
    ensures headers { HeadersAreBlocks }
    ensures tables { TablesAreBlocks }
{}
