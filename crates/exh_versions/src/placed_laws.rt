//! What holds of all page files of version 3, for the proofs of callers. Each function changes nothing.

ghost use Rattle.exh_versions.specs.PlainLaws.{OneLegalPlaced, SameLegal};
ghost use Rattle.exh_versions.specs.PlacedLaws.{OnePlacedFile, OnePlacedImage, PassedHasNoFault, PlacedFilesPass};

/// A file has exactly one list of bytes.
pub fn one_placed_image()
    ensures { OnePlacedImage }
{}

/// Bytes are those of one file.
pub fn one_placed_file()
    ensures { OnePlacedFile }
{
    exh_codec::images_are_blocks();
    exh_codec::one_page();
    exh_cells::walk_blocks_pass();
    exh_cells::stamped_headers_pass();
}

/// The bytes of a file pass all tests, and where all are passed there is no fault.
pub fn placed_files_pass()
    ensures pass { PlacedFilesPass }
    ensures no_fault { PassedHasNoFault }
{
    exh_codec::images_are_blocks();
    exh_codec::images_pass();
    exh_cells::walk_blocks_pass();
    exh_cells::stamped_headers_pass();
}

/// A file whose cells fit, and one of version 2 that says the same, with the tables that the cells tell of: one is legal
/// exactly where the other is.
pub fn same_legal()
    ensures { SameLegal }
{}

/// Legal files with the same header, the same pages at the same places and the same tables are one.
pub fn one_legal_placed()
    ensures { OneLegalPlaced }
{
    exh_legal::legal_files_pass();
    exh_cells::cells_and_tables_tell();
}
