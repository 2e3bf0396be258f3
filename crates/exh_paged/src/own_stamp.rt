//! The stamp of a page file without its log, which is read before the two are opened.
ghost use Rattle.std.specs.Prelude.{◌≡◌, ℕ, IsTrue, IfErr, IfNone, IfOk, IfSome, MatchOption};
ghost use Rattle.sqlite_wal.specs.Files.{seen_image};
ghost use Rattle.sqlite_wal.specs.Reads.{AreClean, IsClean, OnlyReads};
ghost use Rattle.exh_cells.specs.declared.stamped_header.StampedHeader.{StampedHeader as HeaderValue};
ghost use Rattle.exh_cells.specs.StampedHeader.{IsStampedImage};
ghost use Rattle.exh_paged.specs.declared.files_fault.FilesFault.TheVariants.{Read};
ghost use Rattle.exh_paged.specs.OwnLog.{HasStamp, IsOwnStamp, MustHave, MustHaveFor};

use crate::{Expected, FilesFault};
use exh_cells::StampedHeader;
use exh_codec::BLOCK_LEN;
use exh_commit::SeenFiles;
use sqlite_disk::Disk;
use sqlite_pager::Error;
use std::alloc::Global;

/// The stamp that a header in the log has to have, or to have as the stamp before, where a state of the file is expected:
/// that of the file without its log. `None`: it may have any, since the file's own header is damaged, or the log has the
/// states that lead from it. Nothing is written.
///
/// `Read`: the file or its log couldn't be read.
pub(crate) fn own_stamp<D: Disk>(
    alloc: Global,
    files: &mut SeenFiles<D>,
    expected: Expected,
) -> Result<Option<u64>, FilesFault>
    requires log { IsTrue (D.Disk.is_usable files.old.log) }
    requires db { IsTrue (D.Disk.is_usable files.old.db) }
    ensures own { IfOk result (λ own. AreClean D.Disk files.new.log files.new.db → MustHaveFor expected (seen_image D.Disk files.old.log files.old.db) own) }
    ensures read { IfErr result (λ fault. (error : _) × (fault ≡ Read error)) }
    ensures same_log { OnlyReads D.Disk files.old.log files.new.log }
    ensures same_db { OnlyReads D.Disk files.old.db files.new.db }
{
    match expected {
        Expected::Own => must_have(alloc, files),
        Expected::Stamp(_) => Ok(None),
    }
}

// The same where a state of the file is expected.
fn must_have<D: Disk>(alloc: Global, files: &mut SeenFiles<D>) -> Result<Option<u64>, FilesFault>
    requires log { IsTrue (D.Disk.is_usable files.old.log) }
    requires db { IsTrue (D.Disk.is_usable files.old.db) }
    ensures own { IfOk result (λ own. AreClean D.Disk files.new.log files.new.db → MustHave (seen_image D.Disk files.old.log files.old.db) own) }
    ensures read { IfErr result (λ fault. (error : _) × (fault ≡ Read error)) }
    ensures same_log { OnlyReads D.Disk files.old.log files.new.log }
    ensures same_db { OnlyReads D.Disk files.old.db files.new.db }
{
    let Some(stamp) = stamp_alone(files)? else {
        return Ok(None);
    };
    match files.is_line_of(alloc, stamp) {
        Ok(true) => Ok(None),
        Ok(false) => Ok(Some(stamp)),
        Err(error) => Err(FilesFault::Read(error)),
    }
}

// The stamp of the file without its log, `None` where its first block is no header.
fn stamp_alone<D: Disk>(files: &mut SeenFiles<D>) -> Result<Option<u64>, FilesFault>
    requires { IsTrue (D.Disk.is_usable files.old.db) }
    ensures own { IfOk result (λ own. IsClean D.Disk files.new.db → MatchOption own ((stamp : ℕ) → HasStamp stamp (D.Disk.seen files.old.db) → ⊥) (λ stamp. IsOwnStamp stamp (D.Disk.seen files.old.db))) }
    ensures read { IfErr result (λ fault. (error : _) × (fault ≡ Read error)) }
    ensures same_log { files.new.log ≡ files.old.log }
    ensures same_db { OnlyReads D.Disk files.old.db files.new.db }
{
    let mut block = [0; BLOCK_LEN];
    match files.read_first(&mut block) {
        Ok(true) => Ok(stamp_of(&block)),
        Ok(false) => Ok(None),
        Err(error) => Err(FilesFault::Read(Error::Io(error))),
    }
}

// The stamp that a header's block has, `None` where it is none.
fn stamp_of(block: &[u8; BLOCK_LEN]) -> Option<u64>
    ensures none { IfNone result ((header : HeaderValue) → IsStampedImage header block.now → ⊥) }
    ensures some { IfSome result (λ stamp. (header : HeaderValue) × IsStampedImage header block.now × (header.stamp ≡ stamp)) }
    ensures only { IfSome result (λ stamp. (header : HeaderValue) → IsStampedImage header block.now → header.stamp ≡ stamp) }
{
    match StampedHeader::from_block(block) {
        Ok(header) => Some(header.stamp),
        Err(_) => None,
    }
}
