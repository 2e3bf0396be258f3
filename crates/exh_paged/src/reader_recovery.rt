//! Recoveries by readers, which write nothing into a file whose header is damaged, unless its log was being copied.
ghost use Rattle.std.specs.Prelude.{◌≡◌, ◌↔◌, ◌⊎◌, ℕ, List, IsFalse, IsTrue, IfErr, IfOk};
ghost use Rattle.sqlite_disk.specs.Disk.{Only};
ghost use Rattle.sqlite_wal.specs.Files.{seen_image};
ghost use Rattle.sqlite_wal.specs.Reads.{AreClean, IsClean, OnlyReads};
ghost use Rattle.exh_cells.specs.declared.stamped_header.StampedHeader.{StampedHeader as HeaderValue};
ghost use Rattle.exh_cells.specs.StampedHeader.{IsStampedImage};
ghost use Rattle.exh_commit.specs.FilePages.{Leaves, LeavesAlone, StandsFor};
ghost use Rattle.exh_commit.specs.LogLine.{IsBlockOf};
ghost use Rattle.exh_paged.specs.FilesFault.{IsCauseIn};
ghost use Rattle.exh_paged.specs.OwnLog.{MayBeCopied};
ghost use Rattle.exh_paged.specs.declared.expected.Expected.TheVariants.{Own};
ghost use Rattle.exh_paged.specs.declared.files_fault.FilesFault.TheVariants.{Read};

use crate::recovery::recover_files;
use crate::{Expected, FilesFault};
use exh_cells::StampedHeader;
use exh_codec::BLOCK_LEN;
use exh_commit::SeenFiles;
use sqlite_disk::{Disk, Files};
use sqlite_pager::{Error, Options};
use std::alloc::Global;

/// Recovers a page file and its log for a reader, as `recover_files` does where any state of the file is expected, and gives both
/// back; whether it did. Where the file's header is damaged, and none into which the log was being copied, the log may be
/// another file's: then nothing is written.
///
/// Errors: as of `recover_files`.
pub fn recover_for_reader<D: Disk + Drop>(
    alloc: Global,
    mut files: SeenFiles<D>,
    options: Options,
) -> (Result<bool, FilesFault>, Files<D>)
    requires log { IsTrue (D.Disk.is_usable files.log) }
    requires db { IsTrue (D.Disk.is_usable files.db) }

    // After a restart, what is read is what is on the disk.
    requires log_synced { Only (D.Disk.seen files.log) (D.Disk.may_leave files.log) }
    requires db_synced { Only (D.Disk.seen files.db) (D.Disk.may_leave files.db) }

    // It is done over just these files, unless a wrong answer of the disk was taken as true. Others are as before.
    ensures may { IfOk result.0 (λ copied. AreClean D.Disk result.1.log result.1.db → (IsTrue copied ↔ MayBeCopied (seen_image D.Disk files.log files.db))) }
    ensures left { IfOk result.0 (λ copied. IsFalse copied → OnlyReads D.Disk files.log result.1.log × OnlyReads D.Disk files.db result.1.db) }

    // A crash leaves the bytes that the two stood for, and at the end the file alone has them.
    ensures crash { (old : List ℕ) → StandsFor (seen_image D.Disk files.log files.db) old → Leaves D.Disk (result.1.log, result.1.db) (λ bytes. bytes ≡ old) }
    ensures ok { IfOk result.0 (λ copied. IsTrue copied → (old : List ℕ) → StandsFor (seen_image D.Disk files.log files.db) old → LeavesAlone D.Disk (result.1.log, result.1.db) (λ bytes. bytes ≡ old)) }
    ensures refused { IfErr result.0 (λ fault. AreClean D.Disk result.1.log result.1.db → (old : List ℕ) → StandsFor (seen_image D.Disk files.log files.db) old → IsCauseIn Own (seen_image D.Disk files.log files.db) old fault) }
{
    match may_be_copied(alloc, &mut files) {
        Ok(true) => copied(alloc, files, options),
        Ok(false) => (Ok(false), files.into_files()),
        Err(fault) => (Err(fault), files.into_files()),
    }
}

// Recovers a page file and its log.
fn copied<D: Disk + Drop>(
    alloc: Global,
    files: SeenFiles<D>,
    options: Options,
) -> (Result<bool, FilesFault>, Files<D>)
    requires log { IsTrue (D.Disk.is_usable files.log) }
    requires db { IsTrue (D.Disk.is_usable files.db) }
    requires log_synced { Only (D.Disk.seen files.log) (D.Disk.may_leave files.log) }
    requires db_synced { Only (D.Disk.seen files.db) (D.Disk.may_leave files.db) }
    ensures done { IfOk result.0 (λ copied. IsTrue copied × (AreClean D.Disk result.1.log result.1.db → AreClean D.Disk files.log files.db)) }
    ensures crash { (old : List ℕ) → StandsFor (seen_image D.Disk files.log files.db) old → Leaves D.Disk (result.1.log, result.1.db) (λ bytes. bytes ≡ old) }
    ensures ok { IfOk result.0 (λ copied. (old : List ℕ) → StandsFor (seen_image D.Disk files.log files.db) old → LeavesAlone D.Disk (result.1.log, result.1.db) (λ bytes. bytes ≡ old)) }
    ensures refused { IfErr result.0 (λ fault. AreClean D.Disk result.1.log result.1.db → (old : List ℕ) → StandsFor (seen_image D.Disk files.log files.db) old → IsCauseIn Own (seen_image D.Disk files.log files.db) old fault) }
{
    let (recovered, files) = recover_files(alloc, files, options, Expected::Own);
    match recovered {
        Ok(()) => (Ok(true), files),
        Err(fault) => (Err(fault), files),
    }
}

/// Whether a reader may copy the log into the file: the file has a header by itself, or a damaged one into which the log was
/// being copied. Nothing is written.
///
/// `Read`: the file or its log couldn't be read.
pub fn may_be_copied<D: Disk>(alloc: Global, files: &mut SeenFiles<D>) -> Result<bool, FilesFault>
    requires log { IsTrue (D.Disk.is_usable files.old.log) }
    requires db { IsTrue (D.Disk.is_usable files.old.db) }
    ensures may { IfOk result (λ may. AreClean D.Disk files.new.log files.new.db → (IsTrue may ↔ MayBeCopied (seen_image D.Disk files.old.log files.old.db))) }
    ensures read { IfErr result (λ fault. (error : _) × (fault ≡ Read error)) }
    ensures same_log { OnlyReads D.Disk files.old.log files.new.log }
    ensures same_db { OnlyReads D.Disk files.old.db files.new.db }
{
    let mut block = [0; BLOCK_LEN];
    match files.read_first(&mut block) {
        Ok(true) => is_header_or_copy(alloc, files, &block),
        Ok(false) => Ok(false),
        Err(error) => Err(FilesFault::Read(Error::Io(error))),
    }
}

// Whether a block is a header, or one into which the log of the files was being copied.
fn is_header_or_copy<D: Disk>(
    alloc: Global,
    files: &mut SeenFiles<D>,
    block: &[u8; BLOCK_LEN],
) -> Result<bool, FilesFault>
    requires { IsTrue (D.Disk.is_usable files.old.log) }
    ensures is { IfOk result (λ is. IsClean D.Disk files.new.log → (IsTrue is ↔ (((header : HeaderValue) × IsStampedImage header block.now) ⊎ IsBlockOf (D.Disk.seen files.old.log) block.now))) }
    ensures read { IfErr result (λ fault. (error : _) × (fault ≡ Read error)) }
    ensures same_log { OnlyReads D.Disk files.old.log files.new.log }
    ensures same_db { files.new.db ≡ files.old.db }
{
    if StampedHeader::from_block(block).is_ok() {
        return Ok(true);
    }
    match files.is_block_of(alloc, block) {
        Ok(is) => Ok(is),
        Err(error) => Err(FilesFault::Read(error)),
    }
}
