//! What holds of all blocks of pages, for the proofs of callers. Each function changes nothing.

ghost use Rattle.exh_salvage.specs.SavedLaws.{PagesAreSaved};
ghost use Rattle.exh_salvage.specs.WholeLaws.{WholeFilesAreSaved};

/// Of the image of a live page just its pairs are saved, and of that of a forwarding page none, in each version and under
/// each keyer; and none of a block whose first byte is that of no page.
pub fn pages_are_saved()
    ensures { PagesAreSaved }
{
    exh_codec::images_are_sealed();
    exh_codec::blocks_are_read();
}

/// Of bytes of which each block is a page's, in any version, or has its digest and is no page's, the pages' pairs are saved, in
/// their order, and no others, and no block is lost, where each could be read.
pub fn whole_files_are_saved()
    ensures { WholeFilesAreSaved }
{
    exh_codec::images_are_sealed();
    exh_codec::blocks_are_read();
}
