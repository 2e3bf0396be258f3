//! Page files that are opened with their logs in the state that is expected.
ghost use Rattle.std.specs.Prelude.{◌≡◌, ℕ, List, IsTrue, IfErr, IfOk, OnOk};
ghost use Rattle.sqlite_disk.specs.Disk.{Only};
ghost use Rattle.sqlite_wal.specs.Files.{seen_image};
ghost use Rattle.sqlite_wal.specs.Reads.{AreClean};
ghost use Rattle.sqlite_wal.specs.Recovery.{Image};
ghost use Rattle.sqlite_wal.specs.State.{Keeps};
ghost use Rattle.exh_commit.specs.FilePages.{Leaves, LeavesAlone, StandsFor};
ghost use Rattle.exh_commit.specs.PagedFile.{IsHonest, IsReady, bytes_in, files_in, state_in};
ghost use Rattle.exh_paged.specs.FilesFault.{IsCauseIn, IsEarly, IsSaved};
ghost use Rattle.exh_paged.specs.OwnLog.{IsExpected, MustHaveFor};

use crate::header::header_in;
use crate::own_stamp::own_stamp;
use crate::{Expected, FilesFault};
use exh_commit::{ChangeFault, PagedFile, SeenFiles, open};
use sqlite_disk::{Disk, Files};
use sqlite_pager::Options;
use std::alloc::Global;

/// Opens a page file with its log, whatever a crash left of them, if it is in the state that is expected, and copies what the
/// log has into the file, so that a change begins with an empty log. It takes memory for the blocks that are kept, as many as
/// the options say, and for the log's frames.
///
/// An error, with the files: `OthersLog`, the log isn't this file's; `NotAsOpened`, the file has another stamp; `Header`, the
/// header fails this test; `Read`, it couldn't be read; `Uncopied`, what the log has couldn't be copied; `Change`, the two
/// couldn't be opened.
pub(crate) fn open_expected<D: Disk + Drop>(
    alloc: Global,
    mut files: SeenFiles<D>,
    options: Options,
    expected: Expected,
) -> Result<PagedFile<D>, (FilesFault, Files<D>)>
    requires log { IsTrue (D.Disk.is_usable files.log) }
    requires db { IsTrue (D.Disk.is_usable files.db) }
    requires log_synced { Only (D.Disk.seen files.log) (D.Disk.may_leave files.log) }
    requires db_synced { Only (D.Disk.seen files.db) (D.Disk.may_leave files.db) }
    ensures ready { IfOk result IsReady }
    ensures one { IfOk result (λ it. IsHonest it → (old : List ℕ) → StandsFor (seen_image D.Disk files.log files.db) old → bytes_in it ≡ old) }
    ensures expected { IfOk result (λ it. IsHonest it → IsExpected expected (seen_image D.Disk files.log files.db) (bytes_in it)) }
    ensures clean { IfOk result (λ it. IsHonest it → AreClean D.Disk files.log files.db) }

    // The file alone, without its log, has what the two stood for.
    ensures alone { IfOk result (λ it. LeavesAlone D.Disk (files_in it) (λ bytes. bytes ≡ bytes_in it)) }
    ensures crash { IfOk result (λ it. Leaves D.Disk (files_in it) (λ bytes. bytes ≡ bytes_in it)) }
    ensures unchanged { IfErr result (λ failed. (old : List ℕ) → StandsFor (seen_image D.Disk files.log files.db) old → Leaves D.Disk (failed.1.log, failed.1.db) (λ bytes. bytes ≡ old)) }
    ensures refused { IfErr result (λ failed. AreClean D.Disk failed.1.log failed.1.db → (old : List ℕ) → StandsFor (seen_image D.Disk files.log files.db) old → IsCauseIn expected (seen_image D.Disk files.log files.db) old failed.0) }
    ensures early { IfErr result (λ failed. IsEarly failed.0) }
    ensures unsaved { IfErr result (λ failed. IsSaved failed.0 → ⊥) }
{
    match own_stamp(alloc, &mut files, expected) {
        Ok(own) => open_over(alloc, files, options, expected, own),
        Err(fault) => Err((fault, files.into_files())),
    }
}

// The same, where this was found to be what the header in the log has to have.
fn open_over<D: Disk + Drop>(
    alloc: Global,
    files: SeenFiles<D>,
    options: Options,
    expected: Expected,
    own: Option<u64>,
) -> Result<PagedFile<D>, (FilesFault, Files<D>)>
    requires log { IsTrue (D.Disk.is_usable files.log) }
    requires db { IsTrue (D.Disk.is_usable files.db) }
    requires log_synced { Only (D.Disk.seen files.log) (D.Disk.may_leave files.log) }
    requires db_synced { Only (D.Disk.seen files.db) (D.Disk.may_leave files.db) }
    requires own { AreClean D.Disk files.log files.db → MustHaveFor expected (seen_image D.Disk files.log files.db) own }
    ensures ready { IfOk result IsReady }
    ensures one { IfOk result (λ it. IsHonest it → (old : List ℕ) → StandsFor (seen_image D.Disk files.log files.db) old → bytes_in it ≡ old) }
    ensures expected { IfOk result (λ it. IsHonest it → IsExpected expected (seen_image D.Disk files.log files.db) (bytes_in it)) }
    ensures clean { IfOk result (λ it. IsHonest it → AreClean D.Disk files.log files.db) }
    ensures alone { IfOk result (λ it. LeavesAlone D.Disk (files_in it) (λ bytes. bytes ≡ bytes_in it)) }
    ensures crash { IfOk result (λ it. Leaves D.Disk (files_in it) (λ bytes. bytes ≡ bytes_in it)) }
    ensures unchanged { IfErr result (λ failed. (old : List ℕ) → StandsFor (seen_image D.Disk files.log files.db) old → Leaves D.Disk (failed.1.log, failed.1.db) (λ bytes. bytes ≡ old)) }
    ensures refused { IfErr result (λ failed. AreClean D.Disk failed.1.log failed.1.db → (old : List ℕ) → StandsFor (seen_image D.Disk files.log files.db) old → IsCauseIn expected (seen_image D.Disk files.log files.db) old failed.0) }
    ensures early { IfErr result (λ failed. IsEarly failed.0) }
    ensures unsaved { IfErr result (λ failed. IsSaved failed.0 → ⊥) }
{
    let mut file = match open(alloc, files, options) {
        Ok(file) => file,
        Err((error, files)) => {
            return Err((FilesFault::Change(ChangeFault::Open(error)), files));
        }
    };
    if let Err(fault) = see_expected(&mut file, expected, own) {
        return Err((fault, file.close()));
    }
    if let Err(error) = file.settle() {
        return Err((FilesFault::Uncopied(error), file.close()));
    }
    Ok(file)
}

// Sees that the header of a file, as its log has it, is that of the state that is expected.
//
// `OthersLog`, `NotAsOpened`: it isn't. `Header`: it fails this test. `Read`: it couldn't be read.
fn see_expected<D: Disk>(
    file: &mut PagedFile<D>,
    expected: Expected,
    own: Option<u64>,
) -> Result<(), FilesFault>
    requires { IsReady file.old }
    ensures expected { OnOk result (IsHonest file.new → (image : Image) → MustHaveFor expected image own → IsExpected expected image (bytes_in file.old)) }
    ensures refused { IfErr result (λ fault. IsHonest file.new → (image : Image) → MustHaveFor expected image own → IsCauseIn expected image (bytes_in file.old) fault) }
    ensures early { IfErr result IsEarly }
    ensures unsaved { IfErr result (λ fault. IsSaved fault → ⊥) }
    ensures same_bytes { bytes_in file.new ≡ bytes_in file.old }
    ensures ready { (state_in file.new).is_ready ≡ (state_in file.old).is_ready }
    ensures keeps { Keeps (state_in file.old) (state_in file.new) }
    ensures crash { Leaves D.Disk (files_in file.new) (λ bytes. bytes ≡ bytes_in file.old) }
{
    match header_in(file) {
        Ok(header) => expected.see(&header, own),
        Err(fault) => Err(fault),
    }
}
