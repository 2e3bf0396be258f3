//! The page file that a save replaces, locked until it is replaced.

use crate::held_file::HeldFile;
use exh_map::{
    InPlaceFault, OpenedFile, Refused, SystemDisk, TRIES, WAIT, front_of, is_at, lock_soon,
    open_regular, recover_at, see_no_log,
};
use std::fs;
use std::fs::File;

/// Locks the page file that a save replaces at a path, where that is changed in place, and copies into it what a run that
/// was cut off left in its log. The lock lasts until the answer and the file that is held open are dropped, so that no other
/// run leaves a log beside the new file. `None`: it is the file that is held open, or there is none.
///
/// Errors: as of `change_at`. `Unfit` with `OthersLog` also where a log stands there without such a file.
pub(crate) fn lock_replaced(
    rt: &HostRuntime,
    path: &str,
    held: Option<&HeldFile<'_>>,
) -> Result<Option<OpenedFile>, Refused> {
    for _ in 0..TRIES {
        let Some(file) = placed_file_at(rt, path)? else {
            see_no_log(rt, path)?;
            return Ok(None);
        };
        if let Some(held) = held {
            if is_opened_at(rt, path, held)? {
                lock_soon(rt, held.seen.opened(), WAIT)?;
                recover_at(rt, path, held.seen.opened())?;
                return Ok(None);
            }
        }
        lock_soon(rt, &file, WAIT)?;
        if is_there(rt, path, &file)? {
            recover_at(rt, path, &file)?;
            return Ok(Some(SystemDisk::new(rt).seen(path, file)?));
        }
    }
    Err(Refused::Unfit(InPlaceFault::Changed))
}

// The page file of a path that is changed in place, if one is there.
fn placed_file_at(rt: &HostRuntime, path: &str) -> Result<Option<File>, Refused> {
    let Ok(file) = open_regular(rt, path) else {
        return Ok(None);
    };
    if front_of(&file)?.is_none() {
        return Ok(None);
    }
    Ok(Some(file))
}

// Whether the file that is held open is at a path, or was opened there by the same words: a save asks then whether it still is.
fn is_opened_at(rt: &HostRuntime, path: &str, held: &HeldFile<'_>) -> Result<bool, Refused> {
    Ok(held.path == path || is_there(rt, path, held.seen.opened())?)
}

// Whether an open file is at a path.
fn is_there(rt: &HostRuntime, path: &str, file: &File) -> Result<bool, Refused> {
    let whole = fs::canonicalize(rt, path)?;
    Ok(is_at(rt, file, whole.as_str())?)
}
