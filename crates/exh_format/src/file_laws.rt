//! What holds of all page files, for the proofs of callers. Each function changes nothing.

ghost use Rattle.exh_format.specs.FileLaws.{FilesPass, OneFile, OneFileImage, PassedHasNoFault, SameBlocks, WrittenIsFile};

/// In every version of the page file a file has exactly one list of bytes.
pub fn one_image()
    ensures { OneFileImage }
{}

/// In every version that fits bytes are those of one file.
pub fn one_file()
    ensures { OneFile }
{
    exh_codec::images_are_blocks();
    exh_codec::one_page();
    crate::images_are_blocks();
    crate::one_value();
}

/// In every version that fits the bytes of a file pass all tests, and where all are passed there is no
/// fault.
pub fn files_pass()
    ensures pass { FilesPass }
    ensures no_fault { PassedHasNoFault }
{
    exh_codec::images_are_blocks();
    exh_codec::images_pass();
    crate::images_are_blocks();
    crate::images_pass();
    crate::one_value();
}

/// In every version what a writer got of a file that was written whole, behind what it held, is that
/// file: reading it answers the same file.
pub fn written_is_file()
    ensures { WrittenIsFile }
{}

/// The blocks of a file's pages and of its table have the same bytes in each version that may have its
/// entries.
pub fn same_blocks()
    ensures { SameBlocks }
{}
