//! The file that a save replaces, under its lock.
ghost use Rattle.std.specs.Prelude.{◌≡◌, ◌≢◌, IfErr, IfOk, IfSome, OnOk, true};
ghost use Rattle.std.specs.Option.{option_map};
ghost use Rattle.exh_saving.specs.Answer.{Named, Stays};
ghost use Rattle.exh_saving.specs.declared.fault.DiskFault.TheVariants.{Memory};
ghost use Rattle.exh_saving.specs.Replaced.{MayTake};
ghost use Rattle.exh_saving.specs.Unsaved.{IsMoved, IsOldUnheld, IsUnheld};

use crate::names::{NAMES, name_beside, suffix_of};
use crate::path::old_at;
use crate::{Call, Disk, DiskFault, Found, Target, hold, leads_to};
use std::alloc::Global;
use std::io::ErrorKind;

/// The file that a save replaces, and its lock.
#[derive(Drop)]
pub(crate) struct Old<H: Drop> {
    pub(crate) found: Found,
    pub(crate) held: H,
}

/// The file at a path, which a save may replace, under its lock: that of the opened file, where it is this one. `None`
/// where nothing is there.
pub(crate) fn hold_old<D: Disk>(
    disk: &mut D,
    path: &str,
    target: &Target<'_, D::Opened>,
) -> Result<Option<Old<D::Held>>, DiskFault>
    ensures free { IfOk result (λ old. MayTake D.answers D.finds target.now.magic target.now.path.now target.now.seen path.now (option_map (λ held. held.found) old)) }
    ensures there { IfOk result (λ old. IfSome old (λ held. D.answers (Named path.now held.found))) }
    ensures err { IfErr result (IsOldUnheld D.answers D.finds target.now.magic target.now.path.now target.now.seen path.now) }
    ensures crash { D.history disk.new ≡ D.history disk.old }
{
    let Some(found) = old_at(disk, path, target)? else {
        return Ok(None);
    };
    let held = match target.seen {
        Some(seen) if seen.is_at(target.path, path, &found) => hold(disk, seen.opened())?,
        _ => hold_path(disk, path)?,
    };
    Ok(Some(Old { found, held }))
}

// Opens and locks a file that the run hasn't opened.
fn hold_path<D: Disk>(disk: &mut D, path: &str) -> Result<D::Held, DiskFault>
    ensures err { IfErr result (IsUnheld D.answers) }
    ensures crash { D.history disk.new ≡ D.history disk.old }
{
    match disk.open_old(path) {
        Ok(opened) => hold(disk, &opened),
        Err(error) => Err(DiskFault::at(Call::Open, error)),
    }
}

/// Sees that a path still leads to the locked file, as it was.
pub(crate) fn see_held<D: Disk>(
    alloc: Global,
    disk: &mut D,
    path: &str,
    named: &str,
    old: &mut Old<D::Held>,
) -> Result<(), DiskFault>
    ensures leads { OnOk result (D.leads named.now path.now) }
    ensures stands { OnOk result (D.stands old.new.held path.now ≡ true) }
    ensures stays { OnOk result (D.answers (Stays path.now old.old.found)) }
    ensures found { old.new.found ≡ old.old.found }
    ensures err { IfErr result (IsMoved D.leads D.answers named.now path.now) }
    ensures crash { D.history disk.new ≡ D.history disk.old }
{
    if !leads_to(alloc, disk, named, path)? {
        return Err(DiskFault::Changed);
    }
    match disk.confirm_old(&mut old.held, path, &old.found) {
        Ok(true) => Ok(()),
        Ok(false) => Err(DiskFault::Changed),
        Err(error) if error.kind() == ErrorKind::NotFound => Err(DiskFault::Changed),
        Err(error) => Err(DiskFault::at(Call::Ask, error)),
    }
}

/// Takes away the names beside a path that are others of the file that is there: a save that was killed once the file had
/// its path left one.
pub(crate) fn clear_names<D: Disk>(
    alloc: Global,
    disk: &mut D,
    path: &str,
    old: &Old<D::Held>,
) -> Result<(), DiskFault>
    requires { D.answers (Named path.now old.now.found) }
    ensures err { IfErr result (λ fault. fault ≡ Memory) }
    ensures crash { D.history disk.new path.now ≡ D.history disk.old path.now }
{
    if old.found.links == 1 {
        return Ok(());
    }
    for turn in 0..NAMES {
        let Ok(name) = name_beside(alloc, path, suffix_of(turn)) else {
            return Err(DiskFault::Memory);
        };
        clear_name(disk, &name, path, old);
    }
    Ok(())
}

// Where a name isn't taken away another one is used.
fn clear_name<D: Disk>(disk: &mut D, name: &str, path: &str, old: &Old<D::Held>)
    requires { D.answers (Named path.now old.now.found) }
    ensures { D.history disk.new path.now ≡ D.history disk.old path.now }
{
    if name == path {
        return;
    }
    if let Ok(found) = disk.ask_name(name) {
        if found.is_same(&old.found) {
            let _ = disk.unname_old(&old.held, name, path);
        }
    }
}
