//! What a salvage of a legal page file saves, for the proofs of callers. The function changes nothing.

ghost use Rattle.exh_transfer.specs.SalvageLaws.{MapsAreSaved, PlacedFilesAreSaved, PlainFilesAreSaved};

/// Of the bytes of a legal page file, of which each block could be read, just the pairs of the file's pages are saved, in the
/// order of the blocks, and no block is lost; they are those of the file's map, each key once. So it is of version 3, and of
/// 1 and 2 where no number of a change reaches 2^30.
pub fn legal_files_are_saved()
    ensures placed { PlacedFilesAreSaved }
    ensures plain { PlainFilesAreSaved }
    ensures maps { MapsAreSaved }
{
    exh_codec::images_are_blocks();
    exh_salvage::pages_are_saved();
    exh_salvage::whole_files_are_saved();
    exh_compact::legal_bytes_are_files();
}
