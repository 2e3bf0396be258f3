//! Commits of calls over any disk.
ghost use Rattle.std.specs.Prelude.{◌≡◌, ℕ, List, IfErr, IfOk, IsTrue, OnOk};
ghost use Rattle.sqlite_disk.specs.Disk.{Only};
ghost use Rattle.sqlite_wal.specs.Files.{seen_image};
ghost use Rattle.sqlite_wal.specs.Reads.{AreClean};
ghost use Rattle.exhash.specs.OwnLog.{HasOtherStamp, HasStamp};
ghost use Rattle.exhash.specs.Batch.{map_after_all};
ghost use Rattle.exh_map.specs.FilePages.{Leaves, LeavesAlone, StandsFor};
ghost use Rattle.exh_keyer.specs.Pseudokey.{any_pseudokey};
ghost use Rattle.exh_keyer.specs.declared.any_keyer.AnyKeyer.{AnyKeyer};
ghost use Rattle.exh_page.specs.KeyMap.{KeyMap};
ghost use Rattle.exh_page.specs.declared.file_settings.FileSettings.{FileSettings};
ghost use Rattle.exh_map.specs.Told.{IsChanged, IsOfContent, IsUnsure};
ghost use Rattle.exhash.specs.Commit.{IsCommittedAs, IsFileOf, IsOldOrCommitted, stamps_behind};

use crate::answer_over;
use exh_calls::Call;
use exh_map::{Refused, SeenFiles, StoreError, Truthful, legal_files_are_whole};
use sqlite_disk::Files;
use sqlite_pager::Options;
use std::alloc::Global;

/// Makes the calls that changed a map since its page file of version 3 had it in that file, as one change. The file is opened
/// with its log, whatever a crash left of them, and of its blocks those are read and written that the calls go to. Then it
/// gives both back. The file has the stamp `before`, and gets `stamp` where a block changes; the answer is the one that it has
/// then.
///
/// `Changed`: the file is another state than that. `Unsure`: the change may be saved, or was. Others: nothing was saved, as
/// they say.
pub fn commit_calls<D: Truthful + Drop>(
    alloc: Global,
    files: SeenFiles<D>,
    options: Options,
    before: u64,
    calls: &[Call],
    stamp: u64,
) -> (Result<u64, StoreError>, Files<D>)
    requires log { IsTrue (D.Disk.is_usable files.log) }
    requires db { IsTrue (D.Disk.is_usable files.db) }

    // After a restart, what is read is what is on the disk.
    requires log_synced { Only (D.Disk.seen files.log) (D.Disk.may_leave files.log) }
    requires db_synced { Only (D.Disk.seen files.db) (D.Disk.may_leave files.db) }

    // However far it gets, a crash leaves the old bytes, or a page file with the pairs that the calls make of these, newly stamped.
    ensures crash { (settings : FileSettings AnyKeyer) (was : KeyMap) (own : ℕ) (old : List ℕ) → StandsFor (seen_image D.Disk files.log files.db) old → IsFileOf settings was own old
        → Leaves D.Disk (result.1.log, result.1.db) (IsOldOrCommitted D.Truthful.is_truthful (map_after_all settings.cap (any_pseudokey settings.keyer) was calls.now) (stamps_behind own stamp) old) }
    // The file alone, without its log, has these and the stamp that is answered.
    ensures ok { IfOk result.0 (λ now. (settings : FileSettings AnyKeyer) (was : KeyMap) (own : ℕ) (old : List ℕ) → StandsFor (seen_image D.Disk files.log files.db) old → IsFileOf settings was own old
        → LeavesAlone D.Disk (result.1.log, result.1.db) (IsCommittedAs D.Truthful.is_truthful (map_after_all settings.cap (any_pseudokey settings.keyer) was calls.now) (stamps_behind own stamp) now old)) }
    // It had the stamp before, unless a wrong answer of the disk was taken as true.
    ensures opened { OnOk result.0 (AreClean D.Disk result.1.log result.1.db → (old : List ℕ) → StandsFor (seen_image D.Disk files.log files.db) old → HasStamp before old) }
    // `Changed` tells that it has another one.
    ensures changed { IfErr result.0 (λ fault. IsChanged fault → AreClean D.Disk result.1.log result.1.db → (old : List ℕ) → StandsFor (seen_image D.Disk files.log files.db) old → HasOtherStamp before old) }
    // But for `Unsure` nothing was changed.
    ensures unchanged { IfErr result.0 (λ fault. (IsUnsure fault → ⊥) → (old : List ℕ) → StandsFor (seen_image D.Disk files.log files.db) old → Leaves D.Disk (result.1.log, result.1.db) (λ bytes. bytes ≡ old)) }
    // Of a legal page file nothing is told to be wrong, where no answer of the disk can be wrong.
    ensures legal { IfErr result.0 (λ fault. IsOfContent fault → IsTrue D.Truthful.is_truthful → (settings : FileSettings AnyKeyer) (was : KeyMap) (own : ℕ) (old : List ℕ) → StandsFor (seen_image D.Disk files.log files.db) old → IsFileOf settings was own old → ⊥) }
{
    legal_files_are_whole();
    let (answered, files) = answer_over(alloc, files, options, before, calls, stamp);
    match answered {
        Ok(answered) => (Ok(answered.stamp), files),
        Err(fault) => (Err(StoreError::from(Refused::from(fault))), files),
    }
}
