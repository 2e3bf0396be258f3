//! Calls that a page file over any disk answers in the state that was opened.
ghost use Rattle.std.specs.Prelude.{◌≡◌, ℕ, List, IsTrue, IfErr, IfOk, OnOk};
ghost use Rattle.sqlite_disk.specs.Disk.{Only};
ghost use Rattle.sqlite_wal.specs.Files.{seen_image};
ghost use Rattle.sqlite_wal.specs.Reads.{AreClean};
ghost use Rattle.exh_commit.specs.FilePages.{Leaves, LeavesAlone, StandsFor};
ghost use Rattle.exh_paged.specs.CallChange.{OfLegal};
ghost use Rattle.exh_paged.specs.CallsChange.{AreCalled, AreOldOrCalled, AreReplied};
ghost use Rattle.exh_paged.specs.FilesFault.{ChangeFails, IsCause, IsOfDisk, IsSaved, IsUnchanged};
ghost use Rattle.exh_paged.specs.OwnLog.{HasStamp};
ghost use Rattle.exh_paged.specs.declared.expected.Expected.TheVariants.{Stamp};

use crate::calls::Calls;
use crate::{Answered, Expected, FilesFault, answer_files};
use exh_calls::Call;
use exh_commit::{SeenFiles, Truthful};
use sqlite_disk::Files;
use sqlite_pager::Options;
use std::alloc::Global;

/// Answers calls by a page file of version 3 as one change, as `answer_files` does, if it is in the state that has this stamp,
/// `before`; `stamp` is the file's where they change it. Then it gives both back.
///
/// Errors: as of `answer_files`, but for `OthersLog`.
pub fn answer_over<D: Truthful + Drop>(
    alloc: Global,
    files: SeenFiles<D>,
    options: Options,
    before: u64,
    calls: &[Call],
    stamp: u64,
) -> (Result<Answered, FilesFault>, Files<D>)
    requires log { IsTrue (D.Disk.is_usable files.log) }
    requires db { IsTrue (D.Disk.is_usable files.db) }

    // After a restart, what is read is what is on the disk.
    requires log_synced { Only (D.Disk.seen files.log) (D.Disk.may_leave files.log) }
    requires db_synced { Only (D.Disk.seen files.db) (D.Disk.may_leave files.db) }

    // However far it gets, a crash leaves the pairs from before or those from after all calls.
    ensures crash { (old : List ℕ) → StandsFor (seen_image D.Disk files.log files.db) old → OfLegal old (λ file. Leaves D.Disk (result.1.log, result.1.db) (AreOldOrCalled D.Truthful.is_truthful file calls.now stamp old)) }

    // The file alone, without its log, has those from after them, and the replies are the calls'.
    ensures ok { IfOk result.0 (λ answered. (old : List ℕ) → StandsFor (seen_image D.Disk files.log files.db) old
        → OfLegal old (λ file. LeavesAlone D.Disk (result.1.log, result.1.db) (AreReplied D.Truthful.is_truthful file calls.now stamp answered old))) }

    // A fault tells whether the file was changed, but for one behind which the next open tells it.
    ensures unchanged { IfErr result.0 (λ fault. IsUnchanged fault → (old : List ℕ) → StandsFor (seen_image D.Disk files.log files.db) old
        → Leaves D.Disk (result.1.log, result.1.db) (λ bytes. bytes ≡ old)) }
    ensures saved { IfErr result.0 (λ fault. IsSaved fault → (old : List ℕ) → StandsFor (seen_image D.Disk files.log files.db) old
        → OfLegal old (λ file. Leaves D.Disk (result.1.log, result.1.db) (AreCalled D.Truthful.is_truthful file calls.now stamp old))) }

    // The file that was changed had the stamp, and another stamp is told, unless a wrong answer of the disk was taken as true.
    ensures opened { OnOk result.0 (AreClean D.Disk result.1.log result.1.db → (old : List ℕ) → StandsFor (seen_image D.Disk files.log files.db) old → HasStamp before old) }
    ensures refused { IfErr result.0 (λ fault. AreClean D.Disk result.1.log result.1.db → (old : List ℕ) → StandsFor (seen_image D.Disk files.log files.db) old → IsCause (Stamp before) old fault) }
    ensures legal { IfErr result.0 (λ fault. IsTrue D.Truthful.is_truthful → (old : List ℕ) → StandsFor (seen_image D.Disk files.log files.db) old → OfLegal old (λ file. ChangeFails IsOfDisk fault)) }
{
    answer_files(
        alloc,
        files,
        options,
        Expected::Stamp(before),
        &Calls { calls },
        stamp,
    )
}
