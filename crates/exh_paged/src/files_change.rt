//! Changes of a page file over any disk that is in the state that is expected.
ghost use Rattle.std.specs.Prelude.{◌≡◌, ℕ, List, IsTrue, IfErr, IfOk, OnOk};
ghost use Rattle.sqlite_disk.specs.Disk.{Only};
ghost use Rattle.sqlite_wal.specs.Files.{seen_image};
ghost use Rattle.sqlite_wal.specs.Reads.{AreClean};
ghost use Rattle.exh_commit.specs.Change.{IsChanged, IsOldOrChanged, MayChange};
ghost use Rattle.exh_commit.specs.Change as changes;
ghost use Rattle.exh_commit.specs.FilePages.{Leaves, LeavesAlone, StandsFor};
ghost use Rattle.exh_paged.specs.FilesFault.{ChangeFails, IsCauseIn, IsOthersLog, IsSaved, IsUnchanged};
ghost use Rattle.exh_paged.specs.OwnLog.{IsExpected, IsOwnPair};

use crate::opening::open_expected;
use crate::{Expected, FilesFault};
use exh_commit::{Changer, SeenFiles, Truthful};
use sqlite_disk::Files;
use sqlite_pager::Options;
use std::alloc::Global;

/// Opens a page file with its log, whatever a crash left of them, sees that it is in the state that is expected, commits the
/// edits that a changer makes of it, moves them into the file, and gives both back. It takes memory for the blocks that are
/// kept, as many as the options say, and for the edits.
///
/// `OthersLog`: the log isn't this file's. `NotAsOpened`: the file has another stamp. `Header`: the header fails this test.
/// `Read`: it couldn't be read. `Uncopied`: what a cut-off run left in the log couldn't be copied into the file, and stands
/// there still. `Change`: the two couldn't be opened, the changer refused, or the edits weren't saved, or may not have been,
/// as the fault says.
pub fn change_files<D: Truthful + Drop, C: Changer>(
    alloc: Global,
    files: SeenFiles<D>,
    options: Options,
    expected: Expected,
    changer: &C,
) -> (Result<C::Answer, FilesFault>, Files<D>)
    requires log { IsTrue (D.Disk.is_usable files.log) }
    requires db { IsTrue (D.Disk.is_usable files.db) }

    // After a restart, what is read is what is on the disk.
    requires log_synced { Only (D.Disk.seen files.log) (D.Disk.may_leave files.log) }
    requires db_synced { Only (D.Disk.seen files.db) (D.Disk.may_leave files.db) }

    // However far it gets, a crash leaves the old bytes or the new.
    ensures crash { (old : List ℕ) → StandsFor (seen_image D.Disk files.log files.db) old
        → Leaves D.Disk (result.1.log, result.1.db) (IsOldOrChanged D.Truthful.is_truthful (C.allows changer.now) old) }

    // The file alone, without its log, has the new bytes.
    ensures ok { IfOk result.0 (λ answer. (old : List ℕ) → StandsFor (seen_image D.Disk files.log files.db) old
        → LeavesAlone D.Disk (result.1.log, result.1.db) (IsChanged D.Truthful.is_truthful (C.allows changer.now) answer old)) }

    // A fault tells whether the file was changed, but for one behind which the next open tells it.
    ensures unchanged { IfErr result.0 (λ fault. IsUnchanged fault → (old : List ℕ) → StandsFor (seen_image D.Disk files.log files.db) old
        → Leaves D.Disk (result.1.log, result.1.db) (λ bytes. bytes ≡ old)) }
    ensures saved { IfErr result.0 (λ fault. IsSaved fault → (old : List ℕ) → StandsFor (seen_image D.Disk files.log files.db) old
        → Leaves D.Disk (result.1.log, result.1.db) (MayChange D.Truthful.is_truthful (C.allows changer.now) old)) }

    // What was changed is in the state that was expected, and another one is told, unless a wrong answer of the disk was taken as true.
    ensures expected { OnOk result.0 (AreClean D.Disk result.1.log result.1.db → (old : List ℕ) → StandsFor (seen_image D.Disk files.log files.db) old → IsExpected expected (seen_image D.Disk files.log files.db) old) }
    ensures refused { IfErr result.0 (λ fault. AreClean D.Disk result.1.log result.1.db → (old : List ℕ) → StandsFor (seen_image D.Disk files.log files.db) old → IsCauseIn expected (seen_image D.Disk files.log files.db) old fault) }

    // A file and a log that belong together aren't told to be of two files, unless a wrong answer of the disk was taken as true.
    ensures own { IfErr result.0 (λ fault. AreClean D.Disk result.1.log result.1.db → IsOwnPair (seen_image D.Disk files.log files.db) → IsOthersLog fault → ⊥) }
    ensures cause { IfErr result.0 (λ fault. IsTrue D.Truthful.is_truthful → (old : List ℕ) → StandsFor (seen_image D.Disk files.log files.db) old
        → ChangeFails (changes.IsCause (C.allows changer.now) (C.refuses changer.now) old) fault) }
{
    let file = match open_expected(alloc, files, options, expected) {
        Ok(file) => file,
        Err((fault, files)) => return (Err(fault), files),
    };
    let (changed, file) = file.change(alloc, changer);
    let files = file.close();
    match changed {
        Ok(answer) => (Ok(answer), files),
        Err(fault) => (Err(FilesFault::Change(fault)), files),
    }
}
