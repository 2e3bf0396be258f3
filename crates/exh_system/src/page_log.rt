//! The log of a page file, which stands beside it during a change and behind a crash.
ghost use Rattle.std.specs.Prelude.{◌≡◌, ◌++◌, ◌↔◌, IfErr, IfOk, IsTrue, codes, string_bytes};
ghost use Rattle.std.specs.IoError.{error_kind};
ghost use Rattle.std.specs.declared.io.ErrorKind.TheVariants.{OutOfMemory};
ghost use Rattle.exh_system.specs.Fault.{TellsOfNone};

use crate::InPlaceFault;
use std::fs::OpenOptions;
use std::io::ErrorKind;
use std::os::unix::fs::MetadataExt;
use std::{fs, io};

// A log of fewer bytes has no change: its header, and what shuts it.
const LEAST: u64 = 56;

/// The log of the page file of a path without links.
#[derive(Drop)]
pub struct PageLog {
    path: String,
}

impl PageLog {
    /// That of the page file of a path without links, whether it is there or not.
    ///
    /// An error: memory ran out.
    pub fn of(rt: &HostRuntime, whole: &str) -> io::Result<PageLog>
        ensures path { IfOk result (λ log. string_bytes log.path ≡ whole.now ++ codes "-wal") }
        ensures err { IfErr result (λ error. error_kind error ≡ OutOfMemory) }
    {
        let path = format!(in rt.alloc(); "{whole}-wal")?;
        Ok(PageLog { path })
    }

    pub fn path(&self) -> &str
        ensures { result.now ≡ string_bytes self.now.path }
    {
        &self.path
    }

    /// Whether a log is there that may have a change.
    ///
    /// An error: the system doesn't say what is there.
    pub fn has_change(&self, rt: &HostRuntime) -> io::Result<bool> {
        match fs::symlink_metadata(rt, self.path.as_str()) {
            Ok(about) => Ok(!about.is_file() || about.len() >= LEAST),
            Err(error) if tells_of_none(&error) => Ok(false),
            Err(error) => Err(error),
        }
    }

    /// Why the page file of a path and its log aren't opened, of which the system says this.
    pub fn unopened(&self, rt: &HostRuntime, whole: &str, error: io::Error) -> InPlaceFault {
        let is_denied = error.kind() == ErrorKind::PermissionDenied;
        match fs::symlink_metadata(rt, self.path.as_str()) {
            Ok(about) if !about.is_file() => InPlaceFault::NoLog,
            Ok(about) if about.nlink() != 1 => InPlaceFault::LogNames,
            Ok(_) if is_denied && !is_open_to(rt, &self.path) => InPlaceFault::LogDenied,
            Err(none) if is_denied && tells_of_none(&none) && is_open_to(rt, whole) => {
                InPlaceFault::FolderDenied
            }
            _ => InPlaceFault::from(error),
        }
    }

    /// Removes the log, if one is there. Only who has the writers' lock may, once the file alone has what the log has.
    ///
    /// An error: the system doesn't remove it.
    pub fn remove(&self, rt: &HostRuntime) -> io::Result<()> {
        match fs::remove_file(rt, self.path.as_str()) {
            Err(error) if tells_of_none(&error) => Ok(()),
            removed => removed,
        }
    }
}

// Whether what is at a path may be read and written.
fn is_open_to(rt: &HostRuntime, path: &str) -> bool {
    OpenOptions::new()
        .read(true)
        .write(true)
        .open(rt, path)
        .is_ok()
}

/// Whether an error of the system tells that nothing is under a name: it is free, or too long for any file.
pub(crate) fn tells_of_none(error: &io::Error) -> bool
    ensures { IsTrue result ↔ TellsOfNone error.now }
{
    matches!(
        error.kind(),
        ErrorKind::NotFound | ErrorKind::InvalidFilename
    )
}
