//! A page file of the system, opened with its log.
ghost use Rattle.std.specs.Prelude.{true, false, IsTrue, IfOk};
ghost use Rattle.sqlite_std_file.specs.File.{file_is_usable, IsFresh};
ghost use Rattle.exh_in_place.specs.SystemFiles.{IsOnDisk};

use crate::Refused;
use exh_paged::{SeenFiles, see_log};
use exh_system::{InPlaceFault, PageLog, is_at, lock_soon, make_log, open_regular};
use sqlite_disk::Files;
use sqlite_pager::Options;
use sqlite_std_file::{FileFrom, OpenError, Start, Wary};
use std::alloc::Global;
use std::fs::File;
use std::hash::{BuildHasher, RandomState};
use std::{fs, io};

// How many blocks are kept in memory.
const KEPT_BLOCKS: usize = 64;
// How long an empty file's lock is waited for.
const REMOVAL_SECONDS: u64 = 1;

/// A page file of the system, or its log; of a torn write nothing is supposed.
pub(crate) type SystemBlocks = FileFrom<Wary>;

// Looks at the log of files that were just opened. Where it is none of exhash both are let go, as they were.
fn seen<S: Start>(
    alloc: Global,
    files: Files<FileFrom<S>>,
) -> Result<SeenFiles<FileFrom<S>>, Refused>
    requires log { IsTrue (file_is_usable S.Start files.log) }
    requires db { IsTrue (file_is_usable S.Start files.db) }
    requires fresh { IsFresh true files.log × IsFresh false files.db }
    ensures log { IfOk result (λ files. IsTrue (file_is_usable S.Start files.log)) }
    ensures db { IfOk result (λ files. IsTrue (file_is_usable S.Start files.db)) }
    ensures on_disk { IfOk result (λ files. IsOnDisk S.Start files.log × IsOnDisk S.Start files.db) }
{
    match see_log(alloc, files) {
        Ok(files) => Ok(files),
        Err((fault, _)) => Err(Refused::from(fault)),
    }
}

// The file of a path without links, and its log, which is made, or was looked at.
fn opened<S: Start>(
    rt: &HostRuntime,
    whole: &str,
    start: S,
) -> Result<SeenFiles<FileFrom<S>>, Refused>
    ensures log { IfOk result (λ files. IsTrue (file_is_usable S.Start files.log)) }
    ensures db { IfOk result (λ files. IsTrue (file_is_usable S.Start files.db)) }
    ensures on_disk { IfOk result (λ files. IsOnDisk S.Start files.log × IsOnDisk S.Start files.db) }
{
    match sqlite_std_file::open(rt, whole, start) {
        Ok(files) => seen(rt.alloc(), files),
        Err(OpenError::Io(error)) => Err(unopened(rt, whole, error)),
        Err(OpenError::OutOfMemory) => Err(Refused::Unfit(InPlaceFault::Memory)),
        Err(OpenError::Busy) => Err(Refused::Unfit(InPlaceFault::Busy)),
        Err(OpenError::HotJournal) => Err(Refused::Unfit(InPlaceFault::Journal)),
    }
}

// Makes the log of a locked file, where there is none; whether it did.
fn made(rt: &HostRuntime, file: &File, whole: &str) -> Result<bool, Refused> {
    match make_log(rt, file, whole) {
        Ok(is_made) => Ok(is_made),
        Err(error) => Err(unopened(rt, whole, error)),
    }
}

// Why the two aren't opened.
fn unopened(rt: &HostRuntime, whole: &str, error: io::Error) -> Refused {
    match PageLog::of(rt, whole) {
        Ok(log) => Refused::Unfit(log.unopened(rt, whole, error)),
        Err(error) => Refused::from(error),
    }
}

/// The page file of a path without links, which is locked, and its log, which is made, or was looked at. Where the path isn't the locked file's
/// any more, the opening may have made an empty file there: that is removed.
///
/// Errors: `Unfit` with `NotAsOpened` where it isn't, else as of `change_at`.
pub(crate) fn opened_locked<S: Start>(
    rt: &HostRuntime,
    file: &File,
    whole: &str,
    start: S,
) -> Result<SeenFiles<FileFrom<S>>, Refused>
    ensures log { IfOk result (λ files. IsTrue (file_is_usable S.Start files.log)) }
    ensures db { IfOk result (λ files. IsTrue (file_is_usable S.Start files.db)) }
    ensures on_disk { IfOk result (λ files. IsOnDisk S.Start files.log × IsOnDisk S.Start files.db) }
{
    let is_made = made(rt, file, whole)?;
    let found = opened(rt, whole, start);
    let is_there = is_there(rt, file, whole);
    // At another file's path a log of this run's goes only under the log's lock, that is where both were opened.
    if is_made && found.is_ok() != is_there {
        let _ = remove_unused_log(rt, whole);
    }
    if is_there {
        return found;
    }
    drop(found);
    remove_empty(rt, whole)?;
    Err(Refused::Unfit(InPlaceFault::NotAsOpened))
}

// Whether the file is still at its path, as the system says it.
fn is_there(rt: &HostRuntime, file: &File, whole: &str) -> bool {
    match is_at(rt, file, whole) {
        Ok(is_there) => is_there,
        Err(_) => false,
    }
}

// Removes the empty file of a path, under its lock, so that nobody who is making a page file there loses it. Another run may
// have the lock as long as it finds that the file is none.
fn remove_empty(rt: &HostRuntime, whole: &str) -> io::Result<()> {
    let file = open_regular(rt, whole)?;
    let is_locked = lock_soon(rt, &file, REMOVAL_SECONDS).is_ok();
    if is_locked && file.metadata()?.len() == 0 && is_at(rt, &file, whole)? {
        fs::remove_file(rt, whole)?;
    }
    Ok(())
}

/// How they are opened: with few blocks in memory.
pub(crate) fn options(rt: &HostRuntime) -> Result<Options, Refused> {
    let seed = RandomState::new(rt)?.hash_one(&0u8);
    let mut options = Options::new(seed);
    options.cache_pages = KEPT_BLOCKS;
    Ok(options)
}

/// Lets the files go, and removes the log where the file alone has all, or the log has no change: under the log's lock, and if
/// the path still leads to the file that is locked, as behind a renaming another run's log may stand there. The page file is
/// let go last, so that nobody opens both before.
pub(crate) fn close<S: Start>(
    rt: &HostRuntime,
    file: &File,
    whole: &str,
    is_settled: bool,
    files: Files<FileFrom<S>>,
) {
    let Files { log, db } = files;
    // Where the log isn't removed, as by a folder that doesn't let it be, it stays without a change.
    let _ = remove_log(rt, file, whole, is_settled);
    drop(log);
    drop(db);
}

// Removes the log of a locked file, where the file alone has all, or the log has no change, if the path leads to the file
// still: it is asked in the call before.
fn remove_log(rt: &HostRuntime, file: &File, whole: &str, is_settled: bool) -> io::Result<()> {
    let log = PageLog::of(rt, whole)?;
    if (is_settled || !log.has_change(rt)?) && is_at(rt, file, whole)? {
        log.remove(rt)?;
    }
    Ok(())
}

// Removes a log without a change.
fn remove_unused_log(rt: &HostRuntime, whole: &str) -> io::Result<()> {
    let log = PageLog::of(rt, whole)?;
    if !log.has_change(rt)? {
        log.remove(rt)?;
    }
    Ok(())
}
