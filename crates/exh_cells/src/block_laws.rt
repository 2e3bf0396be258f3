//! Laws of headers and walk blocks: each function changes nothing, and its contract is a law.
ghost use Rattle.exh_cells.specs.BlockLaws.{OneStamped, OneWalk, StampedPass, WalksAreBlocks, WalksPass};

/// The walk block of so many cells passes all tests, has the length of a block, and is that of one list of so many. It
/// takes no memory.
pub fn walk_blocks_pass()
    ensures pass { WalksPass }
    ensures blocks { WalksAreBlocks }
    ensures one { OneWalk }
{}

/// The block of a header passes all tests, and is that of one header. It takes no memory.
pub fn stamped_headers_pass()
    ensures pass { StampedPass }
    ensures one { OneStamped }
{}
