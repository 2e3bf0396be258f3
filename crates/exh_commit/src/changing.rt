//! Changes of a file: what a changer makes of it is committed, and moved into the file.
ghost use Rattle.std.specs.Prelude.{◌≡◌, ℕ, List, IsTrue, IfOk, IfErr, OnOk};
ghost use Rattle.sqlite_disk.specs.Disk.{Only};
ghost use Rattle.sqlite_wal.specs.Files.{seen_image};
ghost use Rattle.exh_commit.specs.Change.{IsCause, IsChanged, IsOldOrChanged, IsSaved, IsUnchanged, MayChange};
ghost use Rattle.exh_commit.specs.FilePages.{Leaves, LeavesAlone, StandsFor};
ghost use Rattle.exh_commit.specs.PagedFile.{IsHonest, IsReady, bytes_in, files_in};

use crate::asked::ask;
use crate::{ChangeFault, Changer, PagedFile, SeenFiles, Truthful, open};
use sqlite_disk::Files;
use sqlite_pager::Options;
use std::alloc::Global;
use std::marker::Brand;

impl<D: Truthful + Drop> PagedFile<D> {
    /// Commits the edits that a changer makes of the file, and moves them into it. It answers what the changer answers, and
    /// the file, on which another change may follow. It takes memory for the edits.
    ///
    /// `Refused`: the changer refused. `Commit`: the edits weren't committed, or may not have been, as the fault says.
    /// `LeftInLog`: they were committed, and stand in the log.
    pub fn change<C: Changer>(
        self,
        alloc: Global,
        changer: &C,
    ) -> (Result<C::Answer, ChangeFault>, PagedFile<D>)
        requires { IsReady self }
        ensures ok { IfOk result.0 (λ answer. IsHonest result.1 → IsChanged D.Truthful.is_truthful (C.allows changer.now) answer (bytes_in self) (bytes_in result.1)) }
        ensures ready { OnOk result.0 (IsReady result.1) }
        ensures honest { IsHonest result.1 → IsHonest self }
        ensures cause { IfErr result.0 (λ fault. IsTrue D.Truthful.is_truthful → IsCause (C.allows changer.now) (C.refuses changer.now) (bytes_in self) fault) }

        // What a crash leaves: the bytes after the change, in the file alone; those from before; or, however far it gets, one of both.
        ensures alone { IfOk result.0 (λ answer. LeavesAlone D.Disk (files_in result.1) (IsChanged D.Truthful.is_truthful (C.allows changer.now) answer (bytes_in self))) }
        ensures unchanged { IfErr result.0 (λ fault. IsUnchanged fault → Leaves D.Disk (files_in result.1) (λ bytes. bytes ≡ bytes_in self)) }
        ensures saved { IfErr result.0 (λ fault. IsSaved fault → Leaves D.Disk (files_in result.1) (MayChange D.Truthful.is_truthful (C.allows changer.now) (bytes_in self))) }
        ensures crash { Leaves D.Disk (files_in result.1) (IsOldOrChanged D.Truthful.is_truthful (C.allows changer.now) (bytes_in self)) }
    {
        let (made, mut file) = ask::<D, C, Brand>(alloc, changer, self);
        let (answer, edits) = match made {
            Ok(made) => made,
            Err(fault) => return (Err(ChangeFault::Refused(fault)), file),
        };
        if let Err(fault) = file.commit(&edits) {
            return (Err(ChangeFault::Commit(fault)), file);
        }
        if let Err(error) = file.settle() {
            return (Err(ChangeFault::LeftInLog(error)), file);
        }
        (Ok(answer), file)
    }
}

/// Opens a file with its log, which was looked at, whatever a crash left of them, commits the edits that a changer makes of it, moves them into
/// the file, and gives both back. It takes memory for the pages that are kept, as many as the options say, and for the edits.
///
/// `Open`: the two couldn't be opened. `Refused`: the changer refused. `Commit`: the edits weren't committed, or may not have
/// been, as the fault says. `LeftInLog`: they were committed, and stand in the log.
pub fn change_file<D: Truthful + Drop, C: Changer>(
    alloc: Global,
    files: SeenFiles<D>,
    options: Options,
    changer: &C,
) -> (Result<C::Answer, ChangeFault>, Files<D>)
    requires log { IsTrue (D.Disk.is_usable files.log) }
    requires db { IsTrue (D.Disk.is_usable files.db) }

    // After a restart, what is read is what is on the disk.
    requires log_synced { Only (D.Disk.seen files.log) (D.Disk.may_leave files.log) }
    requires db_synced { Only (D.Disk.seen files.db) (D.Disk.may_leave files.db) }

    // However far it gets, a crash leaves the old bytes or the new.
    ensures crash { (old : List ℕ) → StandsFor (seen_image D.Disk files.log files.db) old
        → Leaves D.Disk (result.1.log, result.1.db) (IsOldOrChanged D.Truthful.is_truthful (C.allows changer.now) old) }

    // The file alone, without its log, has the new bytes.
    ensures ok { IfOk result.0 (λ answer. (old : List ℕ) → StandsFor (seen_image D.Disk files.log files.db) old
        → LeavesAlone D.Disk (result.1.log, result.1.db) (IsChanged D.Truthful.is_truthful (C.allows changer.now) answer old)) }

    // A fault tells whether the file was changed, but for one behind which the next open tells it.
    ensures unchanged { IfErr result.0 (λ fault. IsUnchanged fault → (old : List ℕ) → StandsFor (seen_image D.Disk files.log files.db) old
        → Leaves D.Disk (result.1.log, result.1.db) (λ bytes. bytes ≡ old)) }
    ensures saved { IfErr result.0 (λ fault. IsSaved fault → (old : List ℕ) → StandsFor (seen_image D.Disk files.log files.db) old
        → Leaves D.Disk (result.1.log, result.1.db) (MayChange D.Truthful.is_truthful (C.allows changer.now) old)) }

    // Where no answer of the disk can be wrong, the changer refuses just what it may, and its edits stray where the fault says.
    ensures cause { IfErr result.0 (λ fault. IsTrue D.Truthful.is_truthful → (old : List ℕ) → StandsFor (seen_image D.Disk files.log files.db) old
        → IsCause (C.allows changer.now) (C.refuses changer.now) old fault) }
{
    let file = match open(alloc, files, options) {
        Ok(file) => file,
        Err((error, files)) => return (Err(ChangeFault::Open(error)), files),
    };
    let (answer, file) = file.change(alloc, changer);
    (answer, file.close())
}
