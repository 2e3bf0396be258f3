//! What the six reasons come to, for the proofs of callers. Each function does nothing.

ghost use Rattle.exh_legal.specs.ReasonLaws.{LegalFilesPass, LegalTablesHaveRoom};

use crate::{entries_are_few, fitting_tables_begin_wards, pages_are_few};

/// A file of well-formed pages passes all six tests exactly where each of its wards is legal, with its
/// table as its start and no change since, and no entry names a ward that isn't there.
pub fn legal_files_pass()
    ensures { LegalFilesPass }
{
    fitting_tables_begin_wards();
    pages_are_few();
}

/// The entries of a legal file, over all its wards, are fewer than there are prefixes of `LIMIT` bits.
pub fn legal_tables_have_room()
    ensures { LegalTablesHaveRoom }
{
    entries_are_few();
}
