//! Edits of an open file that are saved.
ghost use Rattle.std.specs.Prelude.{◌≡◌, ℕ, List, IfErr, OnOk};
ghost use Rattle.exh_commit.specs.BlockEdits.{with_edits};
ghost use Rattle.exh_commit.specs.FilePages.{Leaves, LeavesAlone};
ghost use Rattle.exh_commit.specs.PagedFile.{IsHonest, IsOldOrEdited, IsReady, bytes_in, files_in};
ghost use Rattle.exh_paged.specs.declared.expected.Expected.{Expected};
ghost use Rattle.exh_paged.specs.FilesFault.{IsCause, IsSaved, IsUnchanged};

use crate::FilesFault;
use exh_commit::{BlockEdit, ChangeFault, PagedFile};
use sqlite_disk::Disk;

/// Commits some edits of a file, the first of which is made first, and moves them into the file.
///
/// `Change` with `Commit`: they weren't committed, or may not have been, as the fault says; with `LeftInLog`: they were, and
/// stand in the log.
pub(crate) fn save_edits<D: Disk>(
    mut file: PagedFile<D>,
    edits: &[BlockEdit],
) -> (Result<(), FilesFault>, PagedFile<D>)
    requires { IsReady file }
    ensures alone { OnOk result.0 (LeavesAlone D.Disk (files_in result.1) (λ bytes. bytes ≡ with_edits edits.now (bytes_in file))) }
    ensures unchanged { IfErr result.0 (λ fault. IsUnchanged fault → Leaves D.Disk (files_in result.1) (λ bytes. bytes ≡ bytes_in file)) }
    ensures saved { IfErr result.0 (λ fault. IsSaved fault → Leaves D.Disk (files_in result.1) (λ bytes. bytes ≡ with_edits edits.now (bytes_in file))) }
    ensures refused { (expected : Expected) (bytes : List ℕ) → IfErr result.0 (IsCause expected bytes) }
    ensures crash { Leaves D.Disk (files_in result.1) (IsOldOrEdited edits.now (bytes_in file)) }
    ensures honest { IsHonest result.1 → IsHonest file }
{
    if let Err(fault) = file.commit(edits) {
        return (Err(FilesFault::Change(ChangeFault::Commit(fault))), file);
    }
    if let Err(error) = file.settle() {
        return (Err(FilesFault::Change(ChangeFault::LeftInLog(error))), file);
    }
    (Ok(()), file)
}
