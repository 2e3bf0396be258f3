//! The file beside a path that a save has for itself.
ghost use Rattle.std.specs.Prelude.{◌≡◌, ◌≢◌, ◌⊎◌, ◌↔◌, IfErr, IfNone, IfOk, IfSome, IsTrue, OnErr, OnOk, is_some, string_bytes, true};
ghost use Rattle.std.specs.Option.{option_copied};
ghost use Rattle.exh_saving.specs.Answer.{IsTold, Owned};
ghost use Rattle.exh_saving.specs.declared.fault.Call.TheVariants.{Empty as EmptyCall, Make};
ghost use Rattle.exh_saving.specs.declared.stage.Stage.TheVariants.{Empty, Made, OwnLeft};
ghost use Rattle.exh_saving.specs.History.{SameBut};
ghost use Rattle.exh_saving.specs.Stage.{asked, is_ours, locked};
ghost use Rattle.exh_saving.specs.Claimed.{IsClaimed, IsNotOwn, IsOfASave, IsRunner, IsTakenName, IsUnclaimed, IsUnmade, IsUnowned, MayClaim};
ghost use Rattle.exh_saving.specs.LeftOver.{IsLeftOver, IsUnfinished};

use crate::names::{NAMES, name_beside, names_beside, suffix_of};
use crate::{Call, Disk, DiskFault, Found, Head, Kind, Runner};
use std::alloc::Global;
use std::io::ErrorKind;

// The permissions of a file beside an old one, until it has those of that one; and what a new file may have of them.
const PRIVATE: u32 = 0o600;

const USUAL: u32 = 0o666;

/// What a file beside begins with until it is finished. No page file does.
pub const UNFINISHED: [u8; 8] = *b"EXHASHUF";

/// An empty file beside a path for one save alone, and its name. What a killed save left there is taken over; where a
/// name is taken otherwise, or is that of the path, another one is tried.
pub(crate) fn claim<D: Disk>(
    alloc: Global,
    disk: &mut D,
    path: &str,
    old: Option<&Found>,
) -> Result<(D::File, String), DiskFault>
    ensures stage { IfOk result (λ claimed. D.stage claimed.0 ≡ Empty) }
    ensures bytes { IfOk result (λ claimed. D.holds claimed.0 ≡ D.unwritten) }
    ensures beside { IfOk result (λ claimed. string_bytes claimed.1 ≢ path.now) }
    ensures owned { IfOk result (λ claimed. D.answers (Owned (string_bytes claimed.1))) }
    ensures free { IfOk result (λ claimed. IsClaimed D.answers path.now (option_copied old.entry) (string_bytes claimed.1)) }
    ensures err { IfErr result (IsUnclaimed D.answers path.now (option_copied old.entry)) }
    ensures crash { D.history disk.new path.now ≡ D.history disk.old path.now }
{
    for turn in 0..NAMES {
        let Ok(name) = name_beside(alloc, path, suffix_of(turn)) else {
            return Err(DiskFault::Memory);
        };
        if let Some(file) = claim_name(disk, &name, path, old)? {
            return Ok((file, name));
        }
    }
    match names_beside(alloc, path) {
        Ok(names) => Err(DiskFault::NoName(names)),
        Err(_) => Err(DiskFault::Memory),
    }
}

// The same under one name; `None` where something has it that no save left, or it is that of the path, as a long one that
// was cut may be. What has it is asked first: a pipe that is opened would make the save wait.
fn claim_name<D: Disk>(
    disk: &mut D,
    name: &str,
    path: &str,
    old: Option<&Found>,
) -> Result<Option<D::File>, DiskFault>
    ensures stage { IfOk result (λ claimed. IfSome claimed (λ file. D.stage file ≡ Empty)) }
    ensures bytes { IfOk result (λ claimed. IfSome claimed (λ file. D.holds file ≡ D.unwritten)) }
    ensures beside { IfOk result (λ claimed. IfSome claimed (λ _. name.now ≢ path.now)) }
    ensures owned { IfOk result (λ claimed. IfSome claimed (λ _. D.answers (Owned name.now))) }
    ensures free { IfOk result (λ claimed. IfSome claimed (λ _. MayClaim D.answers (option_copied old.entry) name.now)) }
    ensures taken { IfOk result (λ claimed. IfNone claimed (IsTakenName D.answers path.now (option_copied old.entry) name.now)) }
    ensures err { IfErr result (IsUnmade D.answers name.now) }
    ensures crash { D.history disk.new path.now ≡ D.history disk.old path.now }
{
    if name == path {
        return Ok(None);
    }
    match disk.ask_name(name) {
        Ok(found) => {
            let runner = runner_of(disk);
            if is_left_over(&found, runner, old) {
                take_over(disk, name, path, old)
            } else {
                Ok(None)
            }
        }
        Err(error) if error.kind() == ErrorKind::NotFound => Ok(Some(make(disk, name, old)?)),
        Err(error) => Err(DiskFault::at(Call::Make, error)),
    }
}

// For whom the program runs, where the system says that.
fn runner_of<D: Disk>(disk: &mut D) -> Option<Runner>
    ensures runner { IsRunner D.answers result }
    ensures crash { D.history disk.new ≡ D.history disk.old }
{
    match disk.runner() {
        Ok(runner) => Some(runner),
        Err(_) => None,
    }
}

// Whether a killed save may have left this: it is of whom the program runs for, or of whom it was to be given to.
fn is_left_over(found: &Found, runner: Option<Runner>, old: Option<&Found>) -> bool
    ensures { IsTrue result ↔ IsLeftOver found.now runner (option_copied old.entry) }
{
    let is_of_runner = runner.is_some_and(|runner| found.owner == runner.user);
    let is_of_old = old.is_some_and(|old| found.owner == old.owner);
    found.kind == Kind::Regular && found.links == 1 && (is_of_runner || is_of_old)
}

// Makes a file. Where another save took it over at once, that one has it.
fn make<D: Disk>(disk: &mut D, name: &str, old: Option<&Found>) -> Result<D::File, DiskFault>
    ensures stage { IfOk result (λ file. D.stage file ≡ Empty) }
    ensures bytes { IfOk result (λ file. D.holds file ≡ D.unwritten) }
    ensures owned { OnOk result (D.answers (Owned name.now)) }
    ensures err { IfErr result (IsUnmade D.answers name.now) }
    ensures crash { SameBut name.now (D.history disk.old) (D.history disk.new) }
{
    let mode = if old.is_some() { PRIVATE } else { USUAL };
    let mut file = match disk.make(name, mode) {
        Ok(file) => file,
        Err(error) => return Err(DiskFault::busy_at(ErrorKind::AlreadyExists, Call::Make, error)),
    };
    match hold(disk, &mut file, name) {
        Ok(()) => Ok(file),
        Err(DiskFault::Busy) => Err(DiskFault::Busy),
        Err(fault) => {
            let _ = disk.remove(&file, name);
            Err(fault)
        }
    }
}

// Takes the lock of a file that was made, as long as it has its name, and empties it: before that another save may have
// taken it over, and ended before it was done.
fn hold<D: Disk>(disk: &mut D, file: &mut D::File, name: &str) -> Result<(), DiskFault>
    requires { D.stage file.old ≡ Made }
    ensures ok { OnOk result (D.stage file.new ≡ Empty) }
    ensures bytes { OnOk result (D.holds file.new ≡ D.unwritten) }
    ensures err { OnErr result (is_ours (D.stage file.new) ≡ true) }
    ensures why { IfErr result (IsUnmade D.answers name.now) }
    ensures crash { D.history disk.new ≡ D.history disk.old }
{
    own(disk, file, name)?;
    match disk.empty(file) {
        Ok(()) => Ok(()),
        Err(error) => Err(DiskFault::at(Call::Empty, error)),
    }
}

// Takes over what a save left: only once it is locked, and still the file of its name, which another save may have given
// it a path under, and if it is empty or marked as unfinished; `None` where it isn't. Where there is no old file it is made
// anew, with the usual permissions.
fn take_over<D: Disk>(
    disk: &mut D,
    name: &str,
    path: &str,
    old: Option<&Found>,
) -> Result<Option<D::File>, DiskFault>
    requires { name.now ≢ path.now }
    ensures stage { IfOk result (λ taken. IfSome taken (λ file. D.stage file ≡ Empty)) }
    ensures bytes { IfOk result (λ taken. IfSome taken (λ file. D.holds file ≡ D.unwritten)) }
    ensures owned { IfOk result (λ taken. IfSome taken (λ _. D.answers (Owned name.now))) }
    ensures begins { IfOk result (λ taken. IsOfASave D.answers name.now (is_some taken)) }
    ensures err { IfErr result (IsUnmade D.answers name.now) }
    ensures crash { SameBut name.now (D.history disk.old) (D.history disk.new) }
{
    let mut file = match disk.take(name, path) {
        Ok(file) => file,
        Err(error) if error.kind() == ErrorKind::PermissionDenied => return Ok(None),
        // Where it is gone, another save gave it a path.
        Err(error) => return Err(DiskFault::busy_at(ErrorKind::NotFound, Call::Make, error)),
    };
    own(disk, &mut file, name)?;
    if !is_of_a_save(disk, name)? {
        return Ok(None);
    }
    if old.is_none() {
        return match remake(disk, &file, name) {
            Ok(made) => Ok(Some(made)),
            Err(fault) => Err(fault),
        };
    }
    match clear(disk, &mut file, name) {
        Ok(()) => Ok(Some(file)),
        Err(fault) => Err(fault),
    }
}

// Whether a file is one that a save hasn't finished.
fn is_of_a_save<D: Disk>(disk: &mut D, name: &str) -> Result<bool, DiskFault>
    ensures begins { IfOk result (IsOfASave D.answers name.now) }
    ensures err { IfErr result (IsTold D.answers Make) }
    ensures crash { D.history disk.new ≡ D.history disk.old }
{
    match disk.head(name) {
        Ok(head) => Ok(is_unfinished(&head)),
        Err(error) if error.kind() == ErrorKind::PermissionDenied => Ok(false),
        Err(error) => Err(DiskFault::at(Call::Make, error)),
    }
}

// Whether a file is empty, or begins with the mark of one that isn't finished.
fn is_unfinished(head: &Head) -> bool
    ensures { IsTrue result ↔ IsUnfinished head.now }
{
    head.found.size == 0 || head.bytes == UNFINISHED
}

// Makes a file in place of what a save left.
fn remake<D: Disk>(disk: &mut D, left: &D::File, name: &str) -> Result<D::File, DiskFault>
    requires stage { D.stage left.now ≡ OwnLeft }
    requires name { D.answers (Owned name.now) }
    ensures stage { IfOk result (λ file. D.stage file ≡ Empty) }
    ensures bytes { IfOk result (λ file. D.holds file ≡ D.unwritten) }
    ensures err { IfErr result (IsUnmade D.answers name.now) }
    ensures crash { SameBut name.now (D.history disk.old) (D.history disk.new) }
{
    match disk.remove(left, name) {
        Ok(()) => make(disk, name, None),
        Err(error) => Err(DiskFault::at(Call::Make, error)),
    }
}

// Empties what a save left, which nobody else may open by then, or takes its name away.
fn clear<D: Disk>(disk: &mut D, left: &mut D::File, name: &str) -> Result<(), DiskFault>
    requires stage { D.stage left.old ≡ OwnLeft }
    requires name { D.answers (Owned name.now) }
    ensures stage { OnOk result (D.stage left.new ≡ Empty) }
    ensures bytes { OnOk result (D.holds left.new ≡ D.unwritten) }
    ensures err { IfErr result (IsTold D.answers EmptyCall) }
    ensures crash { SameBut name.now (D.history disk.old) (D.history disk.new) }
{
    let cleared = match disk.restrict(left) {
        Ok(()) => disk.empty(left),
        Err(error) => Err(error),
    };
    match cleared {
        Ok(()) => Ok(()),
        Err(error) => {
            let _ = disk.remove(left, name);
            Err(DiskFault::at(Call::Empty, error))
        }
    }
}

// Takes the lock of a file, as long as it has its name.
fn own<D: Disk>(disk: &mut D, file: &mut D::File, name: &str) -> Result<(), DiskFault>
    ensures ok { OnOk result (D.stage file.new ≡ asked (locked (D.stage file.old)) true) }
    ensures owned { OnOk result (D.answers (Owned name.now)) }
    ensures err { OnErr result ((D.stage file.new ≡ D.stage file.old) ⊎ (D.stage file.new ≡ locked (D.stage file.old))) }
    ensures why { IfErr result (IsUnowned D.answers name.now) }
    ensures crash { D.history disk.new ≡ D.history disk.old }
{
    match disk.lock(file) {
        Ok(()) => see_own(disk, file, name),
        Err(error) => Err(DiskFault::busy_at(ErrorKind::WouldBlock, Call::Lock, error)),
    }
}

/// Sees that a file is still the one of its name. Where nothing has the name, another save gave it a path.
pub(crate) fn see_own<D: Disk>(
    disk: &mut D,
    file: &mut D::File,
    name: &str,
) -> Result<(), DiskFault>
    ensures ok { OnOk result (D.stage file.new ≡ asked (D.stage file.old) true) }
    ensures bears { OnOk result (D.bears file.new name.now) }
    ensures owned { OnOk result (D.answers (Owned name.now)) }
    ensures err { OnErr result (D.stage file.new ≡ D.stage file.old) }
    ensures why { IfErr result (IsNotOwn D.answers name.now) }
    ensures bytes { D.holds file.new ≡ D.holds file.old }
    ensures crash { D.history disk.new ≡ D.history disk.old }
{
    match disk.confirm(file, name) {
        Ok(true) => Ok(()),
        Ok(false) => Err(DiskFault::Busy),
        Err(error) => Err(DiskFault::busy_at(ErrorKind::NotFound, Call::Ask, error)),
    }
}
