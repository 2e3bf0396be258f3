//! Page files of the system that are locked to be changed.

use crate::Refused;
use crate::system_files::options;
use exh_system::{
    InPlaceFault, draw_stamp, front_of, is_at, lock_soon, open_regular, see_fit, see_room,
};
use sqlite_pager::Options;
use std::fs;
use std::fs::File;
use std::path::PathBuf;

// How often a path is opened anew to which another file came before it was locked.
const TRIES: u32 = 100;

// The most blocks that a call writes. Twenty splits make twenty pages and change one, two walk blocks more, and the header.
const CALL_BLOCKS: u32 = 32;

/// The page file of a path, locked, and the path without links.
#[derive(Drop)]
pub(crate) struct Locked {
    pub(crate) file: File,
    pub(crate) whole: PathBuf,
}

/// What a change of a page file of the system begins with.
#[derive(Drop)]
pub(crate) struct Begun {
    pub(crate) options: Options,
    /// The new one, which was drawn.
    pub(crate) stamp: u64,
}

/// The page file of a path, locked before it is read, where that is of version 3; `None` where it is of another version, or
/// isn't opened. For the lock it waits so many seconds.
pub(crate) fn locked_at(
    rt: &HostRuntime,
    path: &str,
    seconds: u64,
) -> Result<Option<Locked>, Refused> {
    for _ in 0..TRIES {
        let Ok(file) = open_regular(rt, path) else {
            return Ok(None);
        };
        if front_of(&file)?.is_none() {
            return Ok(None);
        }
        lock_soon(rt, &file, seconds)?;
        let whole = fs::canonicalize(rt, path)?;
        if is_at(rt, &file, whole.as_str())? {
            return Ok(Some(Locked { file, whole }));
        }
    }
    Err(Refused::Unfit(InPlaceFault::Changed))
}

/// Locks the open file of a path, for which it waits so many seconds; the path without links. It must be there still, and be
/// fit to be changed in place.
///
/// Errors: as of `change_at`; `Unfit` with `NotAsOpened` where it isn't there.
pub(crate) fn lock_again(
    rt: &HostRuntime,
    path: &str,
    file: &File,
    seconds: u64,
) -> Result<PathBuf, Refused> {
    lock_soon(rt, file, seconds)?;
    let whole = fs::canonicalize(rt, path)?;
    if !is_at(rt, file, whole.as_str())? {
        return Err(Refused::Unfit(InPlaceFault::NotAsOpened));
    }
    see_fit(rt, file, whole.as_str())?;
    Ok(whole)
}

/// What a change of a locked page file begins with, if that is fit to be changed in place.
pub(crate) fn begin(rt: &HostRuntime, locked: &Locked) -> Result<Begun, Refused> {
    see_fit(rt, &locked.file, locked.whole.as_str())?;
    see_room(rt, &locked.file, locked.whole.as_str(), CALL_BLOCKS)?;
    let stamp = draw_stamp(rt)?;
    let options = options(rt)?;
    Ok(Begun { options, stamp })
}
