//! What holds of legal page files of every version, for the proofs of callers. Each function changes nothing.

ghost use Rattle.exh_versions.specs.VersionLaws.{LegalBytesAreFiles, OneLegalFile, PlacedFilesSayFiles};

/// What a legal file of version 3 says is a legal file of the version that is written, with the same wards, and its
/// tables are those that the cells tell of.
pub fn placed_files_say_files()
    ensures { PlacedFilesSayFiles }
{
    crate::legal_tables_have_room();
}

/// Bytes of any version are those of a legal file that the code knows.
pub fn legal_bytes_are_files()
    ensures { LegalBytesAreFiles }
{
    placed_files_say_files();
}

/// Bytes are those of one legal file, in whichever version.
pub fn one_legal_file()
    ensures { OneLegalFile }
{
    exh_format::one_file();
    crate::one_placed_file();
    crate::cells_and_tables_tell();
}
