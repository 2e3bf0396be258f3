//! A law of refusals: the function changes nothing, and its contract is the law.
ghost use Rattle.exh_in_place.specs.Refusals.{LegalFilesAreWhole};

use exh_paged::{blocks_stand, stamped_headers_pass};

/// Of a legal page file of version 3 no refusal tells that something in it is wrong, where the fault is one of the disk. It
/// takes no memory.
pub fn legal_files_are_whole()
    ensures { LegalFilesAreWhole }
{
    blocks_stand();
    stamped_headers_pass();
}
