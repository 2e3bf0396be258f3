ghost use Rattle.std.specs.Prelude.{◌≡◌};
ghost use Rattle.exh_system.specs.Fault.{IsFaultOf};
ghost use Rattle.exh_system.specs.declared.in_place_fault.InPlaceFault.TheVariants.{Memory};

use std::alloc::AllocError;
use std::io;
use thiserror::Error;

/// Why a page file isn't changed in place, or not read beside others that change it. Nothing of it was changed.
#[derive(Clone, Copy, Debug, Error)]
pub enum InPlaceFault {
    /// Another run has the writers' lock.
    #[error("another run is at work on it")]
    Busy,
    /// Another file came to the path each time before it was locked.
    #[error("other files come to its path")]
    Changed,
    /// What is at the path isn't the file that was opened, or is another state of it.
    #[error("what is there is no longer the file that was opened")]
    NotAsOpened,
    /// The file has a second name, whose log would be another one.
    #[error("it has a second name (a hard link)")]
    SecondName,
    /// The file is mounted by itself, and its log would stand in another folder.
    #[error("it is mounted by itself, without its folder: change it in that")]
    Mounted,
    /// There is no room for the name of its log.
    #[error("its name leaves no room for that of its log")]
    LongName,
    /// The file isn't a list of whole blocks.
    #[error("it ends amid a block")]
    PartOfBlock,
    /// A journal stands beside the file, as SQLite makes one.
    #[error("a journal stands beside it, of the same name with -journal behind it")]
    Journal,
    /// What stands at the log's name is no log of a page file, nor one that was begun.
    #[error("what stands beside it, of the same name with -wal behind it, is no log of exhash: move it")]
    NoLog,
    /// The log has a second name.
    #[error("the log beside it, of the same name with -wal behind it, has a second name (a hard link)")]
    LogNames,
    /// The system lets the log not be read and written.
    #[error("the log beside it, of the same name with -wal behind it, may not be read and written")]
    LogDenied,
    /// The system lets no log be made in the file's folder.
    #[error("its folder lets no log be made there, of the same name with -wal behind it")]
    FolderDenied,
    /// A new file would have the name of the log of the page file beside it, or of an unfinished file of that.
    #[error("its name is that of the log, or of an unfinished file, of the page file beside it: choose another one")]
    NameBeside,
    /// The file, or its log, would have more bytes than the system lets a file of this process have.
    #[error("it, its log or its copy may come above the limit on the size of files, {limit} bytes")]
    AboveLimit { limit: u64 },
    /// The log beside the file isn't the file's.
    #[error("the log beside it, of the same name with -wal behind it, isn't this file's: move it away, keep it, and try check")]
    OthersLog,
    /// The blocks of the log beside the file and those of the file are together no list of blocks.
    #[error("the log beside it, of the same name with -wal behind it, doesn't fit the file: move it away, keep it, and try check")]
    UnfitLog,
    /// The file was changed again and again while it was read.
    #[error("it was being changed all the while")]
    Restless,
    /// The system failed.
    #[error("{0}")]
    System(io::Error),
    /// A growth was refused.
    #[error("out of memory")]
    Memory,
}

impl From<io::Error> for InPlaceFault {
    ghost from_gives = { IsFaultOf };

    fn from(error: io::Error) -> InPlaceFault {
        match error.kind() {
            io::ErrorKind::OutOfMemory => InPlaceFault::Memory,
            _ => InPlaceFault::System(error),
        }
    }
}

impl From<AllocError> for InPlaceFault {
    ghost from_gives = { λ _ fault. fault ≡ Memory };

    fn from(_error: AllocError) -> InPlaceFault {
        InPlaceFault::Memory
    }
}
