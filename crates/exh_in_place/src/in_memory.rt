//! A page file and its log, put together in memory where they can't be on the disk.
ghost use Rattle.std.specs.Prelude.{◌≡◌, ◌&&◌, ◌↔◌, IsTrue, IfOk};
ghost use Rattle.exh_paged.specs.OwnLog.{MayBeCopied};
ghost use Rattle.sqlite_disk.specs.Disk.{Only};
ghost use Rattle.sqlite_disk.specs.Memory.{memory_bytes, memory_is_usable};
ghost use Rattle.exh_in_place.specs.InMemory.{IsOfExpected, StandsAlone};

use crate::Refused;
use crate::system_files::options;
use exh_paged::{Expected, SeenFiles, may_be_copied, recover_files, see_log};
use exh_system::{InPlaceFault, PageLog, is_at, open_regular, tell_damaged_header};
use sqlite_disk::{Disk, Files, Memory};
use sqlite_pager::Options;
use std::alloc::Global;
use std::fs::File;
use std::io::ErrorKind;
use std::os::unix::fs::{FileExt, MetadataExt};
use std::{fs, io};

/// A page file in memory that has what its log had.
#[derive(Drop)]
pub struct InMemory {
    db: Memory,
    /// Whether the file's header is damaged, and none into which the log was being copied: the log may be another file's.
    pub is_damaged: bool,
}

impl InMemory {
    /// Its bytes.
    pub fn bytes(&self) -> &[u8]
        ensures { result.now ≡ memory_bytes self.now.db }
    {
        self.db.bytes()
    }
}

impl Refused {
    /// Whether what a log has couldn't be copied into the file, for want of room or permission.
    pub(crate) fn is_of_copying(&self) -> bool {
        match self {
            Refused::Unrecovered(_) | Refused::Unfit(InPlaceFault::LogDenied) => true,
            Refused::Unfit(InPlaceFault::System(error)) => matches!(
                error.kind(),
                ErrorKind::PermissionDenied | ErrorKind::ReadOnlyFilesystem
            ),
            _ => false,
        }
    }
}

/// The open file of a path, from which writers are kept, with what the log beside it has; `None` where no log is there that
/// may have a change, or the path leads elsewhere by now. Where the file's header is damaged, and none into which the log was
/// being copied, standard error says so. It takes memory for three times the file and its log.
///
/// `Unfit` with `LogDenied`: the log may not be read; with `NoLog`, `LogNames`: as they say. Others: as of `recover_at`.
pub(crate) fn in_memory(
    rt: &HostRuntime,
    path: &str,
    file: &File,
) -> Result<Option<InMemory>, Refused> {
    let whole = fs::canonicalize(rt, path)?;
    let log = PageLog::of(rt, whole.as_str())?;
    if !is_at(rt, file, whole.as_str())? || !log.has_change(rt)? {
        return Ok(None);
    }
    let log = opened_log(rt, log.path())?;
    let files = Files {
        log: loaded(rt.alloc(), &log)?,
        db: loaded(rt.alloc(), file)?,
    };
    let (db, may_copy) = put_together(rt.alloc(), files, options(rt)?, Expected::Own)?;
    let is_damaged = !may_copy;
    if is_damaged {
        tell_damaged_header(rt, path);
    }
    Ok(Some(InMemory { db, is_damaged }))
}

// The log of a path, opened to be read. No link is followed.
fn opened_log(rt: &HostRuntime, path: &str) -> Result<File, Refused> {
    let about = fs::symlink_metadata(rt, path)?;
    if !about.is_file() {
        return Err(Refused::Unfit(InPlaceFault::NoLog));
    }
    if about.nlink() != 1 {
        return Err(Refused::Unfit(InPlaceFault::LogNames));
    }
    match open_regular(rt, path) {
        Err(error) if error.kind() == ErrorKind::PermissionDenied => {
            Err(Refused::Unfit(InPlaceFault::LogDenied))
        }
        opened => Ok(opened?),
    }
}

// An open file in memory.
fn loaded(alloc: Global, file: &File) -> Result<Memory, Refused>
    ensures { IfOk result (λ memory. IsTrue (memory_is_usable memory)) }
{
    let bytes = bytes_of(alloc, file)?;
    let mut memory = Memory::new(alloc);
    memory.write_at(0, &bytes)?;
    Ok(memory)
}

// The bytes of an open file, as far as it has them now.
fn bytes_of(alloc: Global, file: &File) -> io::Result<Vec<u8>> {
    let length = file.metadata()?.len() as usize;
    let mut bytes = vec![in alloc; 0u8; length]?;
    file.read_exact_at(&mut bytes, 0)?;
    Ok(bytes)
}

/// Puts a page file and its log together that are in memory: what both stood for the file has alone. With it comes whether a
/// reader may copy the log into the file.
///
/// Errors: as of `recover_at`.
pub(crate) fn put_together(
    alloc: Global,
    files: Files<Memory>,
    options: Options,
    expected: Expected,
) -> Result<(Memory, bool), Refused>
    requires log { IsTrue (memory_is_usable files.log) }
    requires db { IsTrue (memory_is_usable files.db) }
    ensures alone { IfOk result (λ it. StandsAlone (memory_bytes files.log) (memory_bytes files.db) (memory_bytes it.0)) }
    ensures may { IfOk result (λ it. IsTrue it.1 ↔ MayBeCopied (record { log = memory_bytes files.log; db = memory_bytes files.db })) }
    ensures expected { IfOk result (λ _. IsOfExpected expected (memory_bytes files.log) (memory_bytes files.db)) }
{
    let (together, may_copy) = recovered(alloc, files, options, expected)?;
    Ok((together.db, may_copy))
}

// The same of any disk, and the log that the file doesn't need any more.
fn recovered<D: Disk + Drop>(
    alloc: Global,
    files: Files<D>,
    options: Options,
    expected: Expected,
) -> Result<(Files<D>, bool), Refused>
    requires log { IsTrue (D.Disk.is_usable files.log) }
    requires db { IsTrue (D.Disk.is_usable files.db) }
    ensures alone { IfOk result (λ it. IsTrue (D.Disk.is_clean it.0.log && D.Disk.is_clean it.0.db) → StandsAlone (D.Disk.seen files.log) (D.Disk.seen files.db) (D.Disk.seen it.0.db)) }
    ensures may { IfOk result (λ it. IsTrue (D.Disk.is_clean it.0.log && D.Disk.is_clean it.0.db) → (IsTrue it.1 ↔ MayBeCopied (record { log = D.Disk.seen files.log; db = D.Disk.seen files.db }))) }
    ensures expected { IfOk result (λ it. IsTrue (D.Disk.is_clean it.0.log && D.Disk.is_clean it.0.db) → IsOfExpected expected (D.Disk.seen files.log) (D.Disk.seen files.db)) }
{
    let mut files = settled(alloc, files)?;
    let may_copy = may_be_copied(alloc, &mut files)?;
    let (recovered, files) = recover_files(alloc, files, options, expected);
    match recovered {
        Ok(()) => Ok((files, may_copy)),
        Err(fault) => Err(Refused::from(fault)),
    }
}

// A file and its log of which all is on the disk, and at whose log was looked.
fn settled<D: Disk + Drop>(alloc: Global, files: Files<D>) -> Result<SeenFiles<D>, Refused>
    requires log { IsTrue (D.Disk.is_usable files.log) }
    requires db { IsTrue (D.Disk.is_usable files.db) }
    ensures log { IfOk result (λ it. IsTrue (D.Disk.is_usable it.log)) }
    ensures db { IfOk result (λ it. IsTrue (D.Disk.is_usable it.db)) }
    ensures log_synced { IfOk result (λ it. Only (D.Disk.seen it.log) (D.Disk.may_leave it.log)) }
    ensures db_synced { IfOk result (λ it. Only (D.Disk.seen it.db) (D.Disk.may_leave it.db)) }
    ensures same { IfOk result (λ it. (D.Disk.seen it.log ≡ D.Disk.seen files.log) × (D.Disk.seen it.db ≡ D.Disk.seen files.db)) }
{
    let Files { mut log, mut db } = files;
    log.sync()?;
    db.sync()?;
    match see_log(alloc, Files { log, db }) {
        Ok(files) => Ok(files),
        Err((fault, _)) => Err(Refused::from(fault)),
    }
}
