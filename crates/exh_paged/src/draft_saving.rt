//! Wards that are saved over the page file that they came of.
ghost use Rattle.std.specs.Prelude.{◌≡◌, ℕ, List, IsTrue, IfErr, OnOk};
ghost use Rattle.sqlite_disk.specs.Disk.{Only};
ghost use Rattle.sqlite_wal.specs.Files.{seen_image};
ghost use Rattle.sqlite_wal.specs.Reads.{AreClean};
ghost use Rattle.exh_commit.specs.FilePages.{Leaves, LeavesAlone, StandsFor};
ghost use Rattle.exh_paged.specs.OwnLog.{HasStamp};
ghost use Rattle.exh_paged.specs.SaveFilesFault.{IsCause, IsOfContent, IsSaved, IsUnchanged};
ghost use Rattle.exh_paged.specs.Saving.{IsOldOrSaved, IsSavedOver};

use crate::draft_edits::edits_to;
use crate::opening::open_expected;
use crate::saving::save_edits;
use crate::{Expected, SaveFilesFault};
use exh_commit::{SeenFiles, Truthful};
use exh_file::Draft;
use exh_stores::Pages;
use sqlite_disk::Files;
use sqlite_pager::Options;
use std::alloc::Global;
use std::marker::Brand;

/// Opens a page file with its log, whatever a crash left of them, and saves a draft over it: of its blocks those are written
/// that differ. Then it gives both back. The file must have this stamp, with which the draft's wards were opened. It takes
/// memory for the blocks that are kept, as many as the options say, and for those that are written.
///
/// `Draft`: the wards couldn't be written. `Content`: they couldn't be compared with the file, or are shorter than it.
/// `Files`: the two couldn't be opened, the file has another stamp, the header isn't one, what a cut-off run left in the log
/// couldn't be copied, or the edits weren't saved, or may not have been, as the fault says.
pub fn save_files<D: Truthful + Drop, P: Pages + Drop>(
    alloc: Global,
    files: SeenFiles<D>,
    options: Options,
    stamp: u64,
    draft: Draft<P>,
) -> (Result<(), SaveFilesFault>, Files<D>)
    requires log { IsTrue (D.Disk.is_usable files.log) }
    requires db { IsTrue (D.Disk.is_usable files.db) }

    // After a restart, what is read is what is on the disk.
    requires log_synced { Only (D.Disk.seen files.log) (D.Disk.may_leave files.log) }
    requires db_synced { Only (D.Disk.seen files.db) (D.Disk.may_leave files.db) }

    // However far it gets, a crash leaves the old bytes or those that the draft writes.
    ensures crash { (old : List ℕ) → StandsFor (seen_image D.Disk files.log files.db) old
        → Leaves D.Disk (result.1.log, result.1.db) (IsOldOrSaved D.Truthful.is_truthful draft old) }

    // The file alone, without its log, has those that the draft writes.
    ensures ok { OnOk result.0 ((old : List ℕ) → StandsFor (seen_image D.Disk files.log files.db) old
        → LeavesAlone D.Disk (result.1.log, result.1.db) (IsSavedOver D.Truthful.is_truthful draft old)) }

    // A fault tells whether the file was changed, but for one behind which the next open tells it.
    ensures unchanged { IfErr result.0 (λ fault. IsUnchanged fault → (old : List ℕ) → StandsFor (seen_image D.Disk files.log files.db) old
        → Leaves D.Disk (result.1.log, result.1.db) (λ bytes. bytes ≡ old)) }
    ensures saved { IfErr result.0 (λ fault. IsSaved fault → (old : List ℕ) → StandsFor (seen_image D.Disk files.log files.db) old
        → Leaves D.Disk (result.1.log, result.1.db) (IsSavedOver D.Truthful.is_truthful draft old)) }

    // The file that was saved over had the stamp, and another stamp is told, unless a wrong answer of the disk was taken as true.
    ensures opened { OnOk result.0 (AreClean D.Disk result.1.log result.1.db → (old : List ℕ) → StandsFor (seen_image D.Disk files.log files.db) old → HasStamp stamp old) }
    ensures refused { IfErr result.0 (λ fault. AreClean D.Disk result.1.log result.1.db → (old : List ℕ) → StandsFor (seen_image D.Disk files.log files.db) old → IsCause stamp old fault) }

    // The draft is refused as too short only where it is, where no answer of the disk can be wrong.
    ensures content { IfErr result.0 (λ fault. IsTrue D.Truthful.is_truthful → (old : List ℕ) → StandsFor (seen_image D.Disk files.log files.db) old → IsOfContent draft old fault) }
{
    let file = match open_expected(alloc, files, options, Expected::Stamp(stamp)) {
        Ok(file) => file,
        Err((fault, files)) => return (Err(SaveFilesFault::Files(fault)), files),
    };
    let (made, file) = edits_to::<D, P, Brand>(alloc, file, draft);
    let edits = match made {
        Ok(edits) => edits,
        Err(fault) => return (Err(fault), file.close()),
    };
    let (saved, file) = save_edits(file, &edits);
    let files = file.close();
    match saved {
        Ok(()) => (Ok(()), files),
        Err(fault) => (Err(SaveFilesFault::Files(fault)), files),
    }
}
