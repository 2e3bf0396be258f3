ghost use Rattle.std.specs.Prelude.{◌≡◌, ◌&&◌, ⊤, IfErr, IfOk, None, bytes_eq, string_bytes, true};
ghost use Rattle.std.specs.IoError.{error_kind};
ghost use Rattle.std.specs.declared.io.ErrorKind.TheVariants.{OutOfMemory};
ghost use Rattle.exh_saving.specs.Seen.{IsSeenAt};

use crate::found::found_of;
use crate::lock_way::{LockWay, WAIT, lock_within};
use crate::opening::{open_above, open_with};
use crate::unfinished::{FirstBytes, UnfinishedFile};
use exh_saving::{Disk, Found, Head, Kind, Runner, Seen, Stage, folder_of};
use std::alloc::Global;
use std::fs::{File, OpenOptions, Permissions};
use std::io::{ErrorKind, Read, Write};
use std::os::unix::fs::{MetadataExt, OpenOptionsExt, PermissionsExt, fchown};
use std::{fs, io};

/// The disk of the system, through a handle of the program's.
#[derive(Drop)]
pub struct SystemDisk<'r> {
    rt: &'r HostRuntime,
}

/// A file of the system, how far it is, the name that was asked about last, and whether it had that.
#[derive(Drop)]
pub struct SystemFile {
    file: File,
    first: FirstBytes,
    stage: Stage,
    name: String,
    has_name: bool,
}

/// The lock of a file of the system, the path at which that was looked for last, and whether it was there.
#[derive(Drop)]
pub struct SystemHeld {
    file: File,
    path: String,
    stands: bool,
}

/// A file of the system that was opened at a path, and is held open.
pub type OpenedFile = Seen<File>;

impl<'r> SystemDisk<'r> {
    pub fn new(rt: &'r HostRuntime) -> SystemDisk<'r> {
        SystemDisk { rt }
    }

    /// A file that was opened at a path and is held open, so that a save sees whether it is still there as it was.
    ///
    /// An error: memory ran out.
    pub fn seen(&mut self, path: &str, opened: File) -> io::Result<OpenedFile>
        ensures seen { IfOk result (IsSeenAt (λ _ _. ⊤) (λ _. ⊤) (λ _ _. ⊤) path.now opened) }
        ensures err { IfErr result (λ error. error_kind error ≡ OutOfMemory) }
    {
        Seen::new(self.rt.alloc(), self, path, opened)
    }
}

impl Disk for SystemDisk<'_> {
    type File = SystemFile;

    type Writer = UnfinishedFile;

    type Opened = File;

    type Held = SystemHeld;

    type Device = File;

    ghost stage = { λ file. file.stage };

    ghost bears = { λ file name. (file.has_name ≡ true) × (string_bytes file.name ≡ name) };

    ghost unwritten = { None };

    ghost holds = { λ _. None };

    ghost stands = { λ held path. held.stands && bytes_eq (string_bytes held.path) path };

    ghost history = { λ _ _. None };

    ghost leads = { λ _ _. ⊤ };

    ghost answers = { λ _. ⊤ };

    ghost finds = { λ _ _. ⊤ };

    // The folder that the system has of a process is of whom that runs for.
    fn runner(&mut self) -> io::Result<Runner> {
        let about = fs::metadata(self.rt, "/proc/self")?;
        Ok(Runner {
            user: about.uid(),
            group: about.gid(),
        })
    }

    fn whole_path(&mut self, _alloc: Global, path: &str) -> io::Result<String> {
        Ok(fs::canonicalize(self.rt, path)?.into_string())
    }

    fn ask(&mut self, path: &str) -> io::Result<Found> {
        Ok(found_of(&fs::metadata(self.rt, path)?))
    }

    fn ask_name(&mut self, name: &str) -> io::Result<Found> {
        Ok(found_of(&fs::symlink_metadata(self.rt, name)?))
    }

    fn head(&mut self, path: &str) -> io::Result<Head> {
        let mut bytes = [0; 8];
        let mut options = OpenOptions::new();
        options.read(true).write(true);
        let mut file = open_with(self.rt, &options, path)?;
        let found = found_of(&file.metadata()?);
        file.read(&mut bytes)?;
        Ok(Head { found, bytes })
    }

    fn open_old(&mut self, path: &str) -> io::Result<File> {
        open_above(self.rt, path)
    }

    fn ask_opened(&mut self, opened: &File) -> io::Result<Found> {
        Ok(found_of(&opened.metadata()?))
    }

    // The lock is of all handles of one opening.
    fn hold(&mut self, opened: &File) -> io::Result<SystemHeld> {
        lock_within(self.rt, opened, LockWay::Alone, WAIT)?;
        let file = opened.try_clone()?;
        Ok(SystemHeld {
            file,
            path: String::new(self.rt.alloc()),
            stands: false,
        })
    }

    fn confirm_old(&mut self, held: &mut SystemHeld, path: &str, was: &Found) -> io::Result<bool> {
        let named = found_of(&fs::symlink_metadata(self.rt, path)?);
        let is_there = found_of(&held.file.metadata()?).is_unchanged(&named);
        held.path = String::from_str(self.rt.alloc(), path)?;
        held.stands = is_there && was.is_unchanged(&named);
        Ok(held.stands)
    }

    fn unname_old(&mut self, _held: &SystemHeld, name: &str, _path: &str) -> io::Result<()> {
        fs::remove_file(self.rt, name)
    }

    fn open(&mut self, path: &str) -> io::Result<Option<File>> {
        let mut options = OpenOptions::new();
        options.write(true);
        let file = open_with(self.rt, &options, path)?;
        match found_of(&file.metadata()?).kind {
            Kind::Regular => Ok(None),
            _ => Ok(Some(file)),
        }
    }

    fn synchronize_device(&mut self, device: &mut File) -> io::Result<()> {
        device.sync_all()
    }

    fn make(&mut self, name: &str, mode: u32) -> io::Result<SystemFile> {
        let mut options = OpenOptions::new();
        options.write(true).create_new(true).mode(mode);
        let file = open_with(self.rt, &options, name)?;
        Ok(SystemFile {
            file,
            first: FirstBytes::none(),
            stage: Stage::Made,
            name: String::new(self.rt.alloc()),
            has_name: false,
        })
    }

    fn take(&mut self, name: &str, _path: &str) -> io::Result<SystemFile> {
        let mut options = OpenOptions::new();
        options.write(true);
        let file = open_with(self.rt, &options, name)?;
        Ok(SystemFile {
            file,
            first: FirstBytes::none(),
            stage: Stage::Left,
            name: String::new(self.rt.alloc()),
            has_name: false,
        })
    }

    fn lock(&mut self, file: &mut SystemFile) -> io::Result<()> {
        file.file.try_lock()?;
        file.stage = file.stage.locked();
        Ok(())
    }

    fn confirm(&mut self, file: &mut SystemFile, name: &str) -> io::Result<bool> {
        let named = found_of(&fs::symlink_metadata(self.rt, name)?);
        let is_own = found_of(&file.file.metadata()?).is_only(&named);
        file.name = String::from_str(self.rt.alloc(), name)?;
        file.has_name = is_own;
        file.stage = file.stage.asked(is_own);
        Ok(is_own)
    }

    fn restrict(&mut self, file: &mut SystemFile) -> io::Result<()> {
        file.file.set_permissions(Permissions::from_mode(0o600))?;
        file.stage = Stage::Restricted;
        Ok(())
    }

    fn empty(&mut self, file: &mut SystemFile) -> io::Result<()> {
        file.file.set_len(0)?;
        file.stage = Stage::Empty;
        Ok(())
    }

    fn give(
        &mut self,
        file: &mut SystemFile,
        owner: Option<u32>,
        group: Option<u32>,
    ) -> io::Result<()> {
        fchown(&file.file, owner, group)
    }

    fn permit(&mut self, file: &mut SystemFile, mode: u32) -> io::Result<()> {
        file.file.set_permissions(Permissions::from_mode(mode))?;
        file.stage = Stage::Dressed;
        Ok(())
    }

    fn begin_writing(&mut self, file: SystemFile) -> UnfinishedFile {
        UnfinishedFile {
            file: file.file,
            first: file.first,
        }
    }

    fn end_writing(&mut self, writer: UnfinishedFile) -> SystemFile {
        SystemFile {
            file: writer.file,
            first: writer.first,
            stage: Stage::Written,
            name: String::new(self.rt.alloc()),
            has_name: false,
        }
    }

    fn synchronize(&mut self, file: &mut SystemFile) -> io::Result<()> {
        file.file.sync_all()?;
        file.stage = Stage::Synchronized;
        Ok(())
    }

    fn rename(
        &mut self,
        file: &mut SystemFile,
        name: &str,
        path: &str,
        _held: &SystemHeld,
    ) -> io::Result<()> {
        file.first.put(&file.file)?;
        fs::rename(self.rt, name, path)?;
        file.stage = Stage::Placed;
        Ok(())
    }

    // A system that has no links for a file denies them, or knows no such call.
    fn link(&mut self, file: &mut SystemFile, name: &str, path: &str) -> io::Result<bool> {
        file.first.put(&file.file)?;
        match fs::hard_link(self.rt, name, path) {
            Ok(()) => {
                file.stage = Stage::Linked;
                Ok(true)
            }
            Err(error) => match error.kind() {
                ErrorKind::PermissionDenied | ErrorKind::Unsupported => {
                    file.stage = Stage::Unlinkable;
                    Ok(false)
                }
                _ => Err(error),
            },
        }
    }

    fn unname(&mut self, file: &mut SystemFile, name: &str) -> io::Result<()> {
        file.stage = Stage::Placed;
        fs::remove_file(self.rt, name)
    }

    fn rename_new(&mut self, file: &mut SystemFile, name: &str, path: &str) -> io::Result<()> {
        file.first.put(&file.file)?;
        fs::rename(self.rt, name, path)?;
        file.stage = Stage::Placed;
        Ok(())
    }

    fn synchronize_folder(&mut self, file: &mut SystemFile, path: &str) -> io::Result<()> {
        file.stage = Stage::Settled;
        open_above(self.rt, folder_of(path))?.sync_all()
    }

    fn remove(&mut self, _file: &SystemFile, name: &str) -> io::Result<()> {
        fs::remove_file(self.rt, name)
    }
}
