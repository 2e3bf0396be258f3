//! A save of a regular file: it is written beside its path, and renamed over it, or linked to it where nothing is there.
ghost use Rattle.std.specs.Prelude.{◌≡◌, ◌≢◌, ◌⊎◌, ◌↔◌, IfErr, IfOk, IfSome, IsErrAnd, IsOk, IsTrue, OnErr, OnOk, string_bytes, true};
ghost use Rattle.std.specs.Io.KnownBytes.{Appends};
ghost use Rattle.std.specs.Option.{option_map};
ghost use Rattle.exh_saving.specs.declared.stage.Stage.TheVariants.{Confirmed, Empty, Placed, Settled, Unlinkable};
ghost use Rattle.exh_saving.specs.History.{placed};
ghost use Rattle.exh_saving.specs.Stage.{is_fillable, is_ours};
ghost use Rattle.exh_saving.specs.Answer.{IsTold, Named, Owned, Stays};
ghost use Rattle.exh_saving.specs.declared.fault.Call.TheVariants.{Ask, Link, Rename};
ghost use Rattle.exh_saving.specs.Claimed.{IsClaimed, IsUnclaimed};
ghost use Rattle.exh_saving.specs.Replaced.{IsStill};
ghost use Rattle.exh_saving.specs.Saved.{saved_history};
ghost use Rattle.exh_saving.specs.Unsaved.{IsAgain, IsCome, IsUnplaced, IsUnprepared, IsUnsaved, IsUnwritten, MayPlace};

use crate::claiming::{claim, see_own};
use crate::dressing::dress;
use crate::old::{Old, clear_names, hold_old, see_held};
use crate::path::{old_at, there_at};
use crate::writing::write_source;
use crate::{Call, Disk, DiskFault, Found, Source, Target, Watch};
use std::alloc::Global;
use std::io;
use std::io::ErrorKind;

/// Writes a source beside a path, gives it the place of what is there, whose lock it has until then, and gives the source
/// back. The answer is the file, and why its folder couldn't be synchronized, where it couldn't. On an `Err` what is there
/// is as before, and nothing is left beside it.
#[tactic(auto, using(crate::proofs::Stages::saved_bytes))]
pub(crate) fn save_beside<D: Disk, S: Source, V: Watch>(
    alloc: Global,
    disk: &mut D,
    path: &str,
    target: &Target<'_, D::Opened>,
    source: S,
    watch: &V,
) -> (Result<(D::File, Option<io::Error>), DiskFault>, S)
    ensures settled { IfOk result.0 (λ saved. D.stage saved.0 ≡ Settled) }
    ensures bytes { IfOk result.0 (λ saved. Appends D.unwritten (D.holds saved.0) (S.bytes source)) }
    ensures placed { IfOk result.0 (λ saved. D.history disk.new path.now ≡ saved_history (D.history disk.old path.now) (D.holds saved.0) saved.1) }
    ensures crash { OnErr result.0 (D.history disk.new path.now ≡ D.history disk.old path.now) }
    ensures free { OnOk result.0 (MayPlace D.answers D.finds target.now.magic target.now.path.now target.now.seen path.now) }
    ensures err { IfErr result.0 (IsUnsaved D.leads D.answers D.finds (S.fails source result.1) target.now.magic target.now.path.now target.now.seen path.now) }
    ensures wrote { OnOk result.0 (S.leaves source result.1) }
    ensures source { (result.1 ≡ source) ⊎ S.leaves source result.1 }
{
    let mut old = match hold_old(disk, path, target) {
        Ok(old) => old,
        Err(fault) => return (Err(fault), source),
    };
    let (file, name) = match claim_beside(alloc, disk, path, target, &old) {
        Ok(claimed) => claimed,
        Err(fault) => return (Err(fault), source),
    };
    let (file, filled, source) = fill(disk, file, path, target, found_of(&old), source, watch);
    let saved = finish(
        alloc,
        disk,
        file,
        &name,
        path,
        target.path,
        &mut old,
        filled,
    );
    (saved, source)
}

// Gives a file that is filled its path, and synchronizes its folder, or takes its name away.
fn finish<D: Disk>(
    alloc: Global,
    disk: &mut D,
    mut file: D::File,
    name: &str,
    path: &str,
    named: &str,
    old: &mut Option<Old<D::Held>>,
    filled: Result<(), DiskFault>,
) -> Result<(D::File, Option<io::Error>), DiskFault>
    requires stage { is_fillable (D.stage file) ≡ true }
    requires beside { name.now ≢ path.now }
    requires owned { D.answers (Owned name.now) }
    ensures settled { IfOk result (λ saved. D.stage saved.0 ≡ Settled) }
    ensures stays { OnOk result (IfSome old.old (λ held. D.answers (Stays path.now held.found))) }
    ensures filled { OnOk result (IsOk filled) }
    ensures why { IfErr result (λ fault. IsErrAnd filled (λ error. error ≡ fault) ⊎ IsUnplaced D.leads D.answers named.now path.now name.now fault) }
    ensures bytes { IfOk result (λ saved. D.holds saved.0 ≡ D.holds file) }
    ensures placed { IfOk result (λ saved. D.history disk.new path.now ≡ saved_history (D.history disk.old path.now) (D.holds saved.0) saved.1) }
    ensures crash { OnErr result (D.history disk.new path.now ≡ D.history disk.old path.now) }
{
    match put(alloc, disk, &mut file, name, path, named, old, filled) {
        Ok(()) => {
            match disk.synchronize_folder(&mut file, path) {
                Ok(()) => Ok((file, None)),
                Err(error) => Ok((file, Some(error))),
            }
        }
        // Another save has the name.
        Err(DiskFault::Busy) => Err(DiskFault::Busy),
        Err(fault) => {
            let _ = disk.remove(&file, name);
            Err(fault)
        }
    }
}

// What was found of the file that is to be replaced.
fn found_of<H: Drop>(old: &Option<Old<H>>) -> Option<Found>
    ensures { result ≡ option_map (λ old. old.found) old.now }
{
    match old {
        Some(old) => Some(old.found),
        None => None,
    }
}

// An empty file beside a path, and its name.
fn claim_beside<D: Disk>(
    alloc: Global,
    disk: &mut D,
    path: &str,
    target: &Target<'_, D::Opened>,
    old: &Option<Old<D::Held>>,
) -> Result<(D::File, String), DiskFault>
    requires { IfSome old.now (λ held. D.answers (Named path.now held.found)) }
    ensures stage { IfOk result (λ claimed. D.stage claimed.0 ≡ Empty) }
    ensures bytes { IfOk result (λ claimed. D.holds claimed.0 ≡ D.unwritten) }
    ensures beside { IfOk result (λ claimed. string_bytes claimed.1 ≢ path.now) }
    ensures owned { IfOk result (λ claimed. D.answers (Owned (string_bytes claimed.1))) }
    ensures free { IfOk result (λ claimed. IsClaimed D.answers path.now (option_map (λ held. held.found) old.now) (string_bytes claimed.1)) }
    ensures err { IfErr result (IsUnclaimed D.answers path.now (option_map (λ held. held.found) old.now)) }
    ensures crash { D.history disk.new path.now ≡ D.history disk.old path.now }
{
    if let Some(old) = old {
        clear_names(alloc, disk, path, old)?;
    }
    claim(alloc, disk, path, found_of(old).as_ref())
}

// Dresses and writes an empty file. What is at the path is asked again first: by now no other save changes it.
fn fill<D: Disk, S: Source, V: Watch>(
    disk: &mut D,
    mut file: D::File,
    path: &str,
    target: &Target<'_, D::Opened>,
    old: Option<Found>,
    source: S,
    watch: &V,
) -> (D::File, Result<(), DiskFault>, S)
    requires stage { D.stage file ≡ Empty }
    requires bytes { D.holds file ≡ D.unwritten }
    ensures stage { is_fillable (D.stage result.0) ≡ true }
    ensures source { (result.2 ≡ source) ⊎ S.leaves source result.2 }
    ensures again { OnOk result.1 (IsAgain D.answers D.finds target.now.magic target.now.path.now target.now.seen path.now old) }
    ensures err { IfErr result.1 (λ fault. IsUnprepared D.answers D.finds target.now.magic target.now.path.now target.now.seen path.now old fault ⊎ IsUnwritten (S.fails source result.2) fault) }
    ensures wrote { OnOk result.1 (S.leaves source result.2) }
    ensures bytes { OnOk result.1 (Appends D.unwritten (D.holds result.0) (S.bytes source)) }
    ensures crash { D.history disk.new ≡ D.history disk.old }
{
    match prepare(disk, &mut file, path, target, old) {
        Ok(()) => {
            let writer = disk.begin_writing(file);
            let (written, source, writer) = write_source(writer, source, watch);
            (disk.end_writing(writer), written, source)
        }
        Err(fault) => (file, Err(fault), source),
    }
}

// Sees that what is at the path is what was there, and may be replaced, and dresses the file like it.
fn prepare<D: Disk>(
    disk: &mut D,
    file: &mut D::File,
    path: &str,
    target: &Target<'_, D::Opened>,
    old: Option<Found>,
) -> Result<(), DiskFault>
    requires { D.stage file.old ≡ Empty }
    ensures again { OnOk result (IsAgain D.answers D.finds target.now.magic target.now.path.now target.now.seen path.now old) }
    ensures err { IfErr result (IsUnprepared D.answers D.finds target.now.magic target.now.path.now target.now.seen path.now old) }
    ensures stage { is_fillable (D.stage file.new) ≡ true }
    ensures bytes { D.holds file.new ≡ D.holds file.old }
    ensures crash { D.history disk.new ≡ D.history disk.old }
{
    let there = old_at(disk, path, target)?;
    if !is_still(&old, &there) {
        return Err(DiskFault::Changed);
    }
    match &there {
        Some(there) => match dress(disk, file, there) {
            Ok(()) => Ok(()),
            Err(error) => Err(DiskFault::at(Call::Permit, error)),
        },
        None => Ok(()),
    }
}

// Gives a file that is filled its path, once it is on the disk, and if it is still the file of its name and what is at the
// path is what was there.
fn put<D: Disk>(
    alloc: Global,
    disk: &mut D,
    file: &mut D::File,
    name: &str,
    path: &str,
    named: &str,
    old: &mut Option<Old<D::Held>>,
    filled: Result<(), DiskFault>,
) -> Result<(), DiskFault>
    requires stage { is_fillable (D.stage file.old) ≡ true }
    requires beside { name.now ≢ path.now }
    ensures filled { OnOk result (IsOk filled) }
    ensures stays { OnOk result (IfSome old.old (λ held. D.answers (Stays path.now held.found))) }
    ensures why { IfErr result (λ fault. IsErrAnd filled (λ error. error ≡ fault) ⊎ IsUnplaced D.leads D.answers named.now path.now name.now fault) }
    ensures ok { OnOk result (D.stage file.new ≡ Placed) }
    ensures err { OnErr result (is_ours (D.stage file.new) ≡ true) }
    ensures bytes { D.holds file.new ≡ D.holds file.old }
    ensures placed { OnOk result (D.history disk.new path.now ≡ placed (D.history disk.old path.now) (D.holds file.old)) }
    ensures crash { OnErr result (D.history disk.new path.now ≡ D.history disk.old path.now) }
{
    filled?;
    if let Err(error) = disk.synchronize(file) {
        return Err(DiskFault::at(Call::Synchronize, error));
    }
    see_own(disk, file, name)?;
    match old {
        Some(old) => {
            see_held(alloc, disk, path, named, old)?;
            put_over(disk, file, name, path, old)
        }
        None => put_new(disk, file, name, path),
    }
}

// Gives a confirmed file the path of an old one, which was just seen to be there.
fn put_over<D: Disk>(
    disk: &mut D,
    file: &mut D::File,
    name: &str,
    path: &str,
    old: &Old<D::Held>,
) -> Result<(), DiskFault>
    requires stage { D.stage file.old ≡ Confirmed }
    requires name { D.bears file.old name.now }
    requires beside { name.now ≢ path.now }
    requires held { D.stands old.now.held path.now ≡ true }
    ensures ok { OnOk result (D.stage file.new ≡ Placed) }
    ensures err { OnErr result (is_ours (D.stage file.new) ≡ true) }
    ensures why { IfErr result (IsTold D.answers Rename) }
    ensures bytes { D.holds file.new ≡ D.holds file.old }
    ensures placed { OnOk result (D.history disk.new path.now ≡ placed (D.history disk.old path.now) (D.holds file.old)) }
    ensures crash { OnErr result (D.history disk.new path.now ≡ D.history disk.old path.now) }
{
    match disk.rename(file, name, path, &old.held) {
        Ok(()) => Ok(()),
        Err(error) => Err(DiskFault::at(Call::Rename, error)),
    }
}

// Gives a confirmed file a path at which nothing is. The link fails where something came there.
fn put_new<D: Disk>(
    disk: &mut D,
    file: &mut D::File,
    name: &str,
    path: &str,
) -> Result<(), DiskFault>
    requires stage { D.stage file.old ≡ Confirmed }
    requires name { D.bears file.old name.now }
    requires beside { name.now ≢ path.now }
    ensures ok { OnOk result (D.stage file.new ≡ Placed) }
    ensures err { OnErr result (is_ours (D.stage file.new) ≡ true) }
    ensures why { IfErr result (λ fault. IsCome D.answers path.now fault ⊎ IsTold D.answers Ask fault ⊎ IsTold D.answers Rename fault ⊎ IsTold D.answers Link fault) }
    ensures bytes { D.holds file.new ≡ D.holds file.old }
    ensures placed { OnOk result (D.history disk.new path.now ≡ placed (D.history disk.old path.now) (D.holds file.old)) }
    ensures crash { OnErr result (D.history disk.new path.now ≡ D.history disk.old path.now) }
{
    match disk.link(file, name, path) {
        Ok(true) => {
            // The next save takes away a name that stays.
            let _ = disk.unname(file, name);
            Ok(())
        }
        Ok(false) => rename_new(disk, file, name, path),
        Err(error) if error.kind() == ErrorKind::AlreadyExists => Err(DiskFault::Changed),
        Err(error) => Err(DiskFault::at(Call::Link, error)),
    }
}

// The same where the system has no links: what comes there behind the last look isn't seen.
fn rename_new<D: Disk>(
    disk: &mut D,
    file: &mut D::File,
    name: &str,
    path: &str,
) -> Result<(), DiskFault>
    requires stage { D.stage file.old ≡ Unlinkable }
    requires name { D.bears file.old name.now }
    requires beside { name.now ≢ path.now }
    ensures ok { OnOk result (D.stage file.new ≡ Placed) }
    ensures err { OnErr result (is_ours (D.stage file.new) ≡ true) }
    ensures why { IfErr result (λ fault. IsCome D.answers path.now fault ⊎ IsTold D.answers Ask fault ⊎ IsTold D.answers Rename fault) }
    ensures bytes { D.holds file.new ≡ D.holds file.old }
    ensures placed { OnOk result (D.history disk.new path.now ≡ placed (D.history disk.old path.now) (D.holds file.old)) }
    ensures crash { OnErr result (D.history disk.new path.now ≡ D.history disk.old path.now) }
{
    if there_at(disk, path)?.is_some() {
        return Err(DiskFault::Changed);
    }
    match disk.rename_new(file, name, path) {
        Ok(()) => Ok(()),
        Err(error) => Err(DiskFault::at(Call::Rename, error)),
    }
}

// Whether nothing came, went or was written to in between.
fn is_still(old: &Option<Found>, there: &Option<Found>) -> bool
    ensures { IsTrue result ↔ IsStill old.now there.now }
{
    match (old, there) {
        (Some(old), Some(there)) => old.is_unchanged(there),
        (None, None) => true,
        _ => false,
    }
}
