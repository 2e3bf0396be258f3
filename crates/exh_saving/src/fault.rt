//! Why a path can't be saved to.
ghost use Rattle.std.specs.Prelude.{Some};
ghost use Rattle.exh_saving.specs.CallText.{call_text};

use std::io::ErrorKind;
use std::{fmt, io};
use thiserror::Error;

/// What a save was about when the system failed.
#[derive(Clone, Copy, Debug)]
pub enum Call {
    Ask,
    Open,
    Hold,
    Make,
    Lock,
    Empty,
    Permit,
    Write,
    Synchronize,
    Rename,
    Link,
}

impl fmt::Display for Call {
    ghost output = { λ call. Some (call_text call) };

    fn fmt<W: fmt::Write>(&self, f: &mut fmt::Formatter<W>) -> fmt::Result {
        f.write_str(match self {
            Call::Ask => "asking what is there",
            Call::Open => "opening it",
            Call::Hold => "locking it",
            Call::Make => "making a file beside it",
            Call::Lock => "locking the file beside it",
            Call::Empty => "emptying the file beside it",
            Call::Permit => "giving the file beside it the permissions of the old one",
            Call::Write => "writing",
            Call::Synchronize => "synchronizing",
            Call::Rename => "renaming the file beside it",
            Call::Link => "linking the file beside it",
        })
    }
}

/// Why a path can't be saved to, or wasn't.
#[derive(Debug, Drop, Error)]
pub enum DiskFault {
    #[error("out of memory")]
    Memory,
    #[error("a page is out of reach")]
    Source,
    #[error("{call} failed: {error}")]
    System { call: Call, error: io::Error },
    #[error("it names no file")]
    NoFileName,
    #[error("it is a folder")]
    Folder,
    #[error("it is a link that leads nowhere")]
    DanglingLink,
    #[error("its folder lets no file be made there")]
    ClosedFolder,
    #[error("what is there is no page file")]
    NoPageFile,
    #[error("what is there is no longer the file that was opened")]
    NotAsOpened,
    #[error("what is there was changed while it was saved")]
    Changed,
    #[error("another save to it goes on")]
    Busy,
    #[error("each name beside it is taken: {0}")]
    NoName(String),
}

impl DiskFault {
    ghost use Rattle.std.specs.Prelude.{◌≡◌};
    ghost use Rattle.exh_saving.specs.Answer.{IsBusyTold};
    ghost use Rattle.exh_saving.specs.DiskFault.{told};

    /// A call of the system failed: want of memory is told apart.
    pub fn at(call: Call, error: io::Error) -> DiskFault
        ensures { result ≡ told call error }
    {
        if error.kind() == ErrorKind::OutOfMemory {
            DiskFault::Memory
        } else {
            DiskFault::System { call, error }
        }
    }

    /// The same, but for a kind of error by which the system says that another save has the file.
    pub fn busy_at(busy: ErrorKind, call: Call, error: io::Error) -> DiskFault
        ensures { IsBusyTold busy call error result }
    {
        if error.kind() == busy {
            DiskFault::Busy
        } else {
            DiskFault::at(call, error)
        }
    }
}
