//! Operations that a page file over any disk answers.
ghost use Rattle.std.specs.Prelude.{◌≡◌, ℕ, List, IsTrue, IfErr, IfOk, OnOk};
ghost use Rattle.sqlite_disk.specs.Disk.{Only};
ghost use Rattle.sqlite_wal.specs.Files.{seen_image};
ghost use Rattle.sqlite_wal.specs.Reads.{AreClean};
ghost use Rattle.exh_commit.specs.FilePages.{Leaves, LeavesAlone, StandsFor};
ghost use Rattle.exh_paged.specs.CallChange.{IsAnswered, IsCalled, IsOldOrCalled, OfLegal};
ghost use Rattle.exh_paged.specs.FilesFault.{ChangeFails, IsCauseIn, IsOfDisk, IsOthersLog, IsSaved, IsUnchanged};
ghost use Rattle.exh_paged.specs.OwnLog.{IsExpected, IsOwnPair};

use crate::operated::Operated;
use crate::{Expected, FilesFault, Operation, change_files};
use exh_commit::{SeenFiles, Truthful};
use sqlite_disk::Files;
use sqlite_pager::Options;
use std::alloc::Global;

/// Answers an operation by a page file of version 3 that is opened with its log, whatever a crash left of them, if it is in
/// the state that is expected: the blocks that change are committed together and moved into the file. Then it gives both
/// back. `stamp` is the file's where it changes. It takes memory for the blocks that are kept, as many as the options say,
/// and for those that the operation reads and changes.
///
/// `OthersLog`: the log isn't this file's. `NotAsOpened`: the file has another stamp. `Header`: the header fails this test.
/// `Read`: it couldn't be read. `Uncopied`: what a cut-off run left in the log couldn't be copied into the file, and stands
/// there still. `Change`: the two couldn't be opened, what the operation reads is no legal page file or couldn't be read, or
/// the blocks weren't saved, or may not have been, as the fault says.
pub fn answer_files<D: Truthful + Drop, O: Operation>(
    alloc: Global,
    files: SeenFiles<D>,
    options: Options,
    expected: Expected,
    operation: &O,
    stamp: u64,
) -> (Result<O::Answer, FilesFault>, Files<D>)
    requires log { IsTrue (D.Disk.is_usable files.log) }
    requires db { IsTrue (D.Disk.is_usable files.db) }

    // After a restart, what is read is what is on the disk.
    requires log_synced { Only (D.Disk.seen files.log) (D.Disk.may_leave files.log) }
    requires db_synced { Only (D.Disk.seen files.db) (D.Disk.may_leave files.db) }

    // However far it gets, a crash leaves the pairs from before or those from after the operation.
    ensures crash { (old : List ℕ) → StandsFor (seen_image D.Disk files.log files.db) old
        → OfLegal old (λ file. Leaves D.Disk (result.1.log, result.1.db) (IsOldOrCalled D.Truthful.is_truthful (O.is_idle operation.now) file (O.leaves operation.now file) stamp old)) }

    // The file alone, without its log, has those from after it, and the answer is the operation's.
    ensures ok { IfOk result.0 (λ answer. (old : List ℕ) → StandsFor (seen_image D.Disk files.log files.db) old
        → OfLegal old (λ file. LeavesAlone D.Disk (result.1.log, result.1.db) (IsAnswered D.Truthful.is_truthful (O.is_idle operation.now) file (O.leaves operation.now file) (O.answers operation.now file) stamp answer old))) }

    // A fault tells whether the file was changed, but for one behind which the next open tells it.
    ensures unchanged { IfErr result.0 (λ fault. IsUnchanged fault → (old : List ℕ) → StandsFor (seen_image D.Disk files.log files.db) old
        → Leaves D.Disk (result.1.log, result.1.db) (λ bytes. bytes ≡ old)) }
    ensures saved { IfErr result.0 (λ fault. IsSaved fault → (old : List ℕ) → StandsFor (seen_image D.Disk files.log files.db) old
        → OfLegal old (λ file. Leaves D.Disk (result.1.log, result.1.db) (IsCalled D.Truthful.is_truthful (O.is_idle operation.now) file (O.leaves operation.now file) stamp old))) }

    // What was changed is in the state that was expected, and another one is told, unless a wrong answer of the disk was taken as true.
    ensures expected { OnOk result.0 (AreClean D.Disk result.1.log result.1.db → (old : List ℕ) → StandsFor (seen_image D.Disk files.log files.db) old → IsExpected expected (seen_image D.Disk files.log files.db) old) }
    ensures refused { IfErr result.0 (λ fault. AreClean D.Disk result.1.log result.1.db → (old : List ℕ) → StandsFor (seen_image D.Disk files.log files.db) old → IsCauseIn expected (seen_image D.Disk files.log files.db) old fault) }

    // A file and a log that belong together aren't told to be of two files, unless a wrong answer of the disk was taken as true.
    ensures own { IfErr result.0 (λ fault. AreClean D.Disk result.1.log result.1.db → IsOwnPair (seen_image D.Disk files.log files.db) → IsOthersLog fault → ⊥) }

    // Of a legal page file nothing is refused for what it has, where no answer of the disk can be wrong.
    ensures legal { IfErr result.0 (λ fault. IsTrue D.Truthful.is_truthful → (old : List ℕ) → StandsFor (seen_image D.Disk files.log files.db) old → OfLegal old (λ file. ChangeFails IsOfDisk fault)) }
{
    change_files(
        alloc,
        files,
        options,
        expected,
        &Operated { operation, stamp },
    )
}
