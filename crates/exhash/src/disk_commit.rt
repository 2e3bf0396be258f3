//! Commits over any disk.
ghost use Rattle.std.specs.Prelude.{◌≡◌, ℕ, List, IfErr, IfOk, IsTrue, OnOk};
ghost use Rattle.sqlite_disk.specs.Disk.{Only};
ghost use Rattle.sqlite_wal.specs.Files.{seen_image};
ghost use Rattle.sqlite_wal.specs.Reads.{AreClean};
ghost use Rattle.exhash.specs.OwnLog.{HasStamp};
ghost use Rattle.exh_map.specs.FilePages.{Leaves, LeavesAlone, StandsFor};
ghost use Rattle.exh_map.specs.FileChange.{HasMap};
ghost use Rattle.exh_map.specs.Opened.{AreWardsOf, settings_in};
ghost use Rattle.exh_map.specs.declared.Stamps.{Stamps as StampsOf};
ghost use Rattle.exh_page.specs.KeyMap.{KeyMap};
ghost use Rattle.exhash.specs.Commit.{Drafts, DraftsPlaces, IsCommitted, IsOldOrCommitted, KeepsPlaces};
ghost use Rattle.exh_map.specs.FileMap.{KeepsMap};
ghost use Rattle.exh_map.specs.Sizes.{IsOfCause};
ghost use Rattle.exh_map.specs.Told.{IsUnsure};

use crate::save_files;
use exh_frames::FileStore;
use exh_map::{Draft, FileMap, Opened, Refused, SeenFiles, Stamps, StoreError, Truthful};
use exh_stores::Pages;
use sqlite_disk::Files;
use sqlite_pager::Options;
use std::alloc::Global;

/// Saves a map over the page file of version 3 that its wards came of, which is opened with its log, whatever a crash left of
/// them: of its blocks those are written that differ. Then it gives both back. The pages that have places in the file have
/// these low bounds there, in this order; the file has the stamp `before`, and gets the stamp `own`.
///
/// `Changed`: the file is another state than that. `Unsure`: the change may be saved, or was. Others: nothing was saved, as
/// they say.
pub fn commit_files<D: Truthful + Drop, P: Pages + Drop>(
    alloc: Global,
    files: SeenFiles<D>,
    options: Options,
    lows: &[u64],
    stamps: Stamps,
    map: &mut FileMap<P>,
) -> (Result<(), StoreError>, Files<D>)
    requires log { IsTrue (D.Disk.is_usable files.log) }
    requires db { IsTrue (D.Disk.is_usable files.db) }

    // After a restart, what is read is what is on the disk.
    requires log_synced { Only (D.Disk.seen files.log) (D.Disk.may_leave files.log) }
    requires db_synced { Only (D.Disk.seen files.db) (D.Disk.may_leave files.db) }

    // However far it gets, a crash leaves the old bytes, or a page file with the pairs of the map and these stamps.
    ensures crash { (whole : KeyMap) → HasMap map.old whole → (old : List ℕ) → StandsFor (seen_image D.Disk files.log files.db) old
        → Leaves D.Disk (result.1.log, result.1.db) (IsOldOrCommitted D.Truthful.is_truthful whole stamps old) }

    // The file alone, without its log, has these.
    ensures ok { OnOk result.0 ((whole : KeyMap) → HasMap map.old whole → (old : List ℕ) → StandsFor (seen_image D.Disk files.log files.db) old
        → LeavesAlone D.Disk (result.1.log, result.1.db) (IsCommitted D.Truthful.is_truthful whole stamps old)) }
    // The pages that had places have them.
    ensures places { OnOk result.0 ((old : List ℕ) → StandsFor (seen_image D.Disk files.log files.db) old
        → LeavesAlone D.Disk (result.1.log, result.1.db) (KeepsPlaces D.Truthful.is_truthful lows.now)) }
    // It had the stamp before, unless a wrong answer of the disk was taken as true.
    ensures opened { OnOk result.0 (AreClean D.Disk result.1.log result.1.db → (old : List ℕ) → StandsFor (seen_image D.Disk files.log files.db) old → HasStamp stamps.before old) }
    // But for `Unsure` nothing was changed.
    ensures unchanged { IfErr result.0 (λ fault. (IsUnsure fault → ⊥) → (old : List ℕ) → StandsFor (seen_image D.Disk files.log files.db) old → Leaves D.Disk (result.1.log, result.1.db) (λ bytes. bytes ≡ old)) }
    // The map is as before.
    ensures kept { KeepsMap map.old map.new }
    ensures settings { settings_in map.new ≡ settings_in map.old }
{
    match draft_of(alloc, lows, stamps, map) {
        Ok(draft) => save_draft(alloc, files, options, stamps.before, draft),
        Err(fault) => (Err(fault), files.into_files()),
    }
}

// The draft of a copy of a map's wards.
fn draft_of<P: Pages + Drop>(
    alloc: Global,
    lows: &[u64],
    stamps: Stamps,
    map: &mut FileMap<P>,
) -> Result<Draft<FileStore>, StoreError>
    ensures draft { IfOk result (λ draft. (whole : KeyMap) → HasMap map.old whole → Drafts whole stamps draft) }
    ensures places { IfOk result (DraftsPlaces lows.now) }
    ensures kept { KeepsMap map.old map.new }
    ensures settings { settings_in map.new ≡ settings_in map.old }
{
    match map.copied(alloc) {
        Ok(copy) => drafted(alloc, copy, lows, stamps),
        Err(fault) => Err(fault),
    }
}

/// The draft of wards some of whose pages have places already, where they have these low bounds. It takes memory for some
/// bytes a page.
///
/// `Changed`: they aren't pages of these wards. `Memory`: a growth was refused. `OutOfReach`: a page is out of reach.
pub(crate) fn drafted(
    alloc: Global,
    wards: Opened<FileStore>,
    lows: &[u64],
    stamps: Stamps,
) -> Result<Draft<FileStore>, StoreError>
    requires { AreWardsOf wards }
    ensures draft { IfOk result (λ draft. (whole : KeyMap) → HasMap wards whole → Drafts whole stamps draft) }
    ensures places { IfOk result (DraftsPlaces lows.now) }
    ensures refused { IfErr result IsOfCause }
{
    match Draft::grown(alloc, wards, lows, stamps) {
        Ok(draft) => Ok(draft),
        Err(fault) => Err(StoreError::from(fault)),
    }
}

// Saves a draft over a file that has this stamp.
fn save_draft<D: Truthful + Drop>(
    alloc: Global,
    files: SeenFiles<D>,
    options: Options,
    stamp: u64,
    draft: Draft<FileStore>,
) -> (Result<(), StoreError>, Files<D>)
    requires log { IsTrue (D.Disk.is_usable files.log) }
    requires db { IsTrue (D.Disk.is_usable files.db) }
    requires log_synced { Only (D.Disk.seen files.log) (D.Disk.may_leave files.log) }
    requires db_synced { Only (D.Disk.seen files.db) (D.Disk.may_leave files.db) }
    ensures crash { (whole : KeyMap) (stamps : StampsOf) → Drafts whole stamps draft → (old : List ℕ) → StandsFor (seen_image D.Disk files.log files.db) old
        → Leaves D.Disk (result.1.log, result.1.db) (IsOldOrCommitted D.Truthful.is_truthful whole stamps old) }
    ensures ok { OnOk result.0 ((whole : KeyMap) (stamps : StampsOf) → Drafts whole stamps draft → (old : List ℕ) → StandsFor (seen_image D.Disk files.log files.db) old
        → LeavesAlone D.Disk (result.1.log, result.1.db) (IsCommitted D.Truthful.is_truthful whole stamps old)) }
    ensures places { OnOk result.0 ((lows : List ℕ) → DraftsPlaces lows draft → (old : List ℕ) → StandsFor (seen_image D.Disk files.log files.db) old
        → LeavesAlone D.Disk (result.1.log, result.1.db) (KeepsPlaces D.Truthful.is_truthful lows)) }
    ensures opened { OnOk result.0 (AreClean D.Disk result.1.log result.1.db → (old : List ℕ) → StandsFor (seen_image D.Disk files.log files.db) old → HasStamp stamp old) }
    ensures unchanged { IfErr result.0 (λ fault. (IsUnsure fault → ⊥) → (old : List ℕ) → StandsFor (seen_image D.Disk files.log files.db) old → Leaves D.Disk (result.1.log, result.1.db) (λ bytes. bytes ≡ old)) }
{
    let (saved, files) = save_files(alloc, files, options, stamp, draft);
    match saved {
        Ok(()) => (Ok(()), files),
        Err(fault) => (Err(StoreError::from(Refused::from(fault))), files),
    }
}
