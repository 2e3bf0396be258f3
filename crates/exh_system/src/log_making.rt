//! A log that is made beside a page file: it has its name only once it has the file's owner, group and permissions.
ghost use Rattle.std.specs.Prelude.{◌≡◌};
ghost use Rattle.exh_system.specs.LogMode.{log_mode};

use crate::PageLog;
use crate::opening::open_with;
use std::fs::{File, OpenOptions, Permissions};
use std::io::ErrorKind;
use std::os::unix::fs::{MetadataExt, OpenOptionsExt, PermissionsExt, fchown};
use std::{fs, io};

// The permissions of a log until it has the file's.
const PRIVATE: u32 = 0o600;

/// Makes the log of an open page file, whose lock the run has, where nothing has its name. Until it has the file's owner,
/// group and permissions it stands under another name, and what a killed run left there goes; where something else has that
/// name it is made in its place. Whether it was made.
///
/// An error: the system doesn't make it.
pub fn make_log(rt: &HostRuntime, file: &File, whole: &str) -> io::Result<bool> {
    let log = PageLog::of(rt, whole)?;
    if !is_free(rt, log.path()) {
        return Ok(false);
    }
    let name = format!(in rt.alloc(); "{whole}-wal-new")?;
    remove_left(rt, &name);
    match new_file(rt, &name) {
        Ok(made) => made_under(rt, &made, file, &name, log.path()),
        Err(_) => made_there(rt, file, log.path()),
    }
}

// Whether a log that was made under another name got its own. Where that fails the other one is taken away.
fn made_under(
    rt: &HostRuntime,
    log: &File,
    file: &File,
    name: &str,
    path: &str,
) -> io::Result<bool> {
    let placed = placed(rt, log, file, name, path);
    if placed.is_err() {
        let _ = fs::remove_file(rt, name);
    }
    placed
}

// Makes a log in its place, and takes its name away where it doesn't get what its file has.
fn made_there(rt: &HostRuntime, file: &File, path: &str) -> io::Result<bool> {
    let log = new_file(rt, path)?;
    let dressed = dress(&log, file);
    if dressed.is_err() {
        let _ = fs::remove_file(rt, path);
    }
    dressed?;
    Ok(true)
}

// Whether nothing has a name, as far as the system says.
fn is_free(rt: &HostRuntime, name: &str) -> bool {
    match fs::symlink_metadata(rt, name) {
        Ok(_) => false,
        Err(error) => error.kind() == ErrorKind::NotFound,
    }
}

// Removes the empty file of a name, which a killed run left.
fn remove_left(rt: &HostRuntime, name: &str) {
    match fs::symlink_metadata(rt, name) {
        Ok(left) if left.is_file() && left.len() == 0 => {
            let _ = fs::remove_file(rt, name);
        }
        _ => {}
    }
}

fn new_file(rt: &HostRuntime, name: &str) -> io::Result<File> {
    let mut options = OpenOptions::new();
    options.write(true).create_new(true).mode(PRIVATE);
    open_with(rt, &options, name)
}

// Gives a new log a file's group and owner, where the system allows that, and then its permissions.
fn dress(log: &File, file: &File) -> io::Result<()> {
    let about = file.metadata()?;
    let has_group = is_given(fchown(log, None, Some(about.gid())))?;
    is_given(fchown(log, Some(about.uid()), None))?;
    log.set_permissions(Permissions::from_mode(log_mode(about.mode(), has_group)))
}

// Whether the system allowed it.
fn is_given(given: io::Result<()>) -> io::Result<bool> {
    match given {
        Ok(()) => Ok(true),
        Err(error) if error.kind() == ErrorKind::PermissionDenied => Ok(false),
        Err(error) => Err(error),
    }
}

// The permissions of a log of a file of this mode: those of the file; without its group none for the group, and for others
// no more than the file's group has.
fn log_mode(mode: u32, has_group: bool) -> u32
    ensures { result ≡ log_mode mode has_group }
{
    if has_group {
        mode & 0o777
    } else {
        mode & 0o700 | mode & (mode / 8) & 0o007
    }
}

// Gives a new log what its file has, and then its name, if that is free still; whether it was.
fn placed(rt: &HostRuntime, log: &File, file: &File, name: &str, path: &str) -> io::Result<bool> {
    dress(log, file)?;
    if !is_free(rt, path) {
        fs::remove_file(rt, name)?;
        return Ok(false);
    }
    fs::rename(rt, name, path)?;
    Ok(true)
}
