//! The file beside a new path, in which a copy is written before it is linked there.
ghost use Rattle.std.specs.Prelude.{IfErr};
ghost use Rattle.exh_map.specs.Sizes.{IsOfCause};
ghost use Rattle.exh_map.specs.Backup.{IsOfPlace};

use crate::{StoreError, is_at, lock_soon};
use exh_saving::{DiskFault, UNFINISHED};
use std::alloc::{AllocError, Global};
use std::fs::{File, OpenOptions, Permissions};
use std::io::ErrorKind;
use std::os::fd::AsRawFd;
use std::os::unix::fs::{FileExt, MetadataExt, OpenOptionsExt, PermissionsExt};
use std::{fs, io};

// The descriptors below are those of the standard streams.
const FIRST: i32 = 3;

// The bits of a mode that say who may do what.
const PERMISSIONS: u32 = 0o777;

// What stands behind the name of a new file in that of the one beside it.
const SUFFIX: &str = ".exhash-copying";

// A name of a file has at most 255 bytes, of which the suffix has 15.
const NAME_LIMIT: usize = 240;

// How often a file beside is made anew that another process had, and is gone once it is locked.
const TRIES: u32 = 100;

/// An unfinished file beside a new path, which is locked.
#[derive(Drop)]
pub(crate) struct Beside {
    file: File,
    path: String,
}

impl Beside {
    /// Makes the file beside a new path, with the permissions of another one, or takes over the one that a process left which
    /// was cut off. For another process that has it, it waits so many seconds.
    ///
    /// `Exists`: something is at the new path by then. `Busy`: another process has it. `Unsaved`: its name is taken. Others: it
    /// isn't made, as they say.
    pub(crate) fn made(
        rt: &HostRuntime,
        like: &File,
        new: &str,
        seconds: u64,
    ) -> Result<Beside, StoreError>
        ensures { IfErr result IsOfPlace }
    {
        let mode = like.metadata()?.mode() & PERMISSIONS;
        let path = path_beside(rt.alloc(), new)?;
        for _ in 0..TRIES {
            let file = opened(rt, &path, mode)?;
            lock_soon(rt, &file, seconds)?;
            if is_at(rt, &file, &path)? {
                let beside = Beside { file, path };
                return beside.begun(rt, new, mode);
            }
        }
        Err(StoreError::Busy)
    }

    // The same, with the mark of an unfinished file in place of its first block, where nothing is at the new path.
    fn begun(self, rt: &HostRuntime, new: &str, mode: u32) -> Result<Beside, StoreError>
        ensures { IfErr result IsOfPlace }
    {
        if !is_unfinished(&self.file)? {
            return Err(taken(rt, &self.path));
        }
        if fs::symlink_metadata(rt, new).is_ok() {
            self.remove(rt);
            return Err(StoreError::Exists);
        }
        self.file.set_len(0)?;
        self.file.set_permissions(Permissions::from_mode(mode))?;
        self.file.write_all_at(&UNFINISHED, 0)?;
        Ok(self)
    }

    /// The file.
    pub(crate) fn file(&self) -> &File {
        &self.file
    }

    /// Links the file to the new path, and takes its own name away. On a file system without links it is renamed.
    ///
    /// `Exists`: something is there. Others: it isn't there, as they say.
    pub(crate) fn place(self, rt: &HostRuntime, new: &str) -> Result<(), StoreError>
        ensures { IfErr result IsOfPlace }
    {
        match self.linked(rt, new) {
            Ok(()) => {
                self.remove(rt);
                Ok(())
            }
            Err(error) if error.kind() == ErrorKind::AlreadyExists => {
                self.remove(rt);
                Err(StoreError::Exists)
            }
            Err(error) => {
                self.remove(rt);
                Err(StoreError::from(error))
            }
        }
    }

    // Links it, or renames it where the system has no links for it.
    fn linked(&self, rt: &HostRuntime, new: &str) -> io::Result<()> {
        match fs::hard_link(rt, self.path.as_str(), new) {
            Err(error) if has_no_links(&error) => {
                if fs::symlink_metadata(rt, new).is_ok() {
                    return Err(io::Error::from(ErrorKind::AlreadyExists));
                }
                fs::rename(rt, self.path.as_str(), new)
            }
            linked => linked,
        }
    }

    /// Takes the file's name away.
    pub(crate) fn remove(&self, rt: &HostRuntime) {
        let _ = fs::remove_file(rt, self.path.as_str());
    }
}

// Whether a system denies a link since it has none for a file.
fn has_no_links(error: &io::Error) -> bool {
    matches!(
        error.kind(),
        ErrorKind::PermissionDenied | ErrorKind::Unsupported
    )
}

// The path beside a new one: its name, as far as there is room for it, with the suffix behind it.
fn path_beside(alloc: Global, new: &str) -> Result<String, AllocError> {
    let (folder, name) = match new.rsplit_once('/') {
        Some((folder, name)) => (Some(folder), name),
        None => (None, new),
    };
    let mut path = String::new(alloc);
    if let Some(folder) = folder {
        path.push_str(folder)?;
        path.push('/')?;
    }
    let mut length = 0usize;
    for letter in name.chars() {
        length = length.saturating_add(letter.len_utf8());
        if length > NAME_LIMIT {
            break;
        }
        path.push(letter)?;
    }
    path.push_str(SUFFIX)?;
    Ok(path)
}

// The file of a path beside, which is made where there is none.
fn opened(rt: &HostRuntime, path: &str, mode: u32) -> Result<File, StoreError>
    ensures { IfErr result IsOfCause }
{
    let mut options = OpenOptions::new();
    options.read(true).write(true).create_new(true).mode(mode);
    match options.open(rt, path) {
        Ok(made) => Ok(above(made)?),
        Err(error) if error.kind() == ErrorKind::AlreadyExists => left(rt, path),
        Err(error) => Err(StoreError::from(error)),
    }
}

// The regular file that stands at a path beside.
fn left(rt: &HostRuntime, path: &str) -> Result<File, StoreError>
    ensures { IfErr result IsOfCause }
{
    if !fs::symlink_metadata(rt, path)?.is_file() {
        return Err(taken(rt, path));
    }
    let mut options = OpenOptions::new();
    options.read(true).write(true);
    Ok(above(options.open(rt, path)?)?)
}

// The fault that the name beside is taken by something else, which stays.
fn taken(rt: &HostRuntime, path: &str) -> StoreError
    ensures { IsOfCause result }
{
    match String::from_str(rt.alloc(), path) {
        Ok(name) => StoreError::from(DiskFault::NoName(name)),
        Err(_) => StoreError::Memory,
    }
}

// The same file, by a descriptor that no standard stream has.
fn above(file: File) -> io::Result<File> {
    if file.as_raw_fd() < FIRST {
        file.try_clone()
    } else {
        Ok(file)
    }
}

// Whether a file is empty, or begins with the mark of one that isn't finished.
fn is_unfinished(file: &File) -> io::Result<bool> {
    if file.metadata()?.len() == 0 {
        return Ok(true);
    }
    let mut first = [0; 8];
    match file.read_exact_at(&mut first, 0) {
        Ok(()) => Ok(first == UNFINISHED),
        Err(error) if error.kind() == ErrorKind::UnexpectedEof => Ok(false),
        Err(error) => Err(error),
    }
}
