ghost use Rattle.std.specs.Prelude.{◌≡◌, ◌↔◌, IsTrue};
ghost use Rattle.exh_in_place.specs.Refusals.{IsOfFault, IsOfSaveFault, MayBeSaved};
ghost use Rattle.exh_in_place.specs.declared.refused.Refused.TheVariants.{Unfit};

use exh_paged::{
    ChangeFault, CommitFault, DifferingFault, FilesFault, LogFault, SaveFault, SaveFilesFault,
};
use exh_system::{DirectFault, InPlaceFault};
use sqlite_pager::Error;
use std::io;
use thiserror::Error as Fault;

/// Why a page file isn't changed in place, or not read beside others that change it.
#[derive(Debug, Drop, Fault)]
pub enum Refused {
    /// It can't be, and nothing was changed.
    #[error("{0}")]
    Unfit(InPlaceFault),
    /// What the change reads of it is no legal page file of version 3, and nothing was changed.
    #[error("{0}")]
    Damaged(DirectFault),
    /// The wards that are to be saved over it couldn't be written, and nothing was changed.
    #[error("{0}")]
    Unwritten(SaveFault),
    /// They couldn't be compared with it, and nothing was changed.
    #[error("{0}")]
    Uncompared(DifferingFault),
    /// It wasn't changed, or may have been, as the fault says.
    #[error("{0}")]
    Change(ChangeFault),
    /// A change that was cut off stands in the log beside it, and can't be copied into it. Nothing else was changed.
    #[error("a change stands in the log beside the file, and can't be copied into it: {0}")]
    Unrecovered(Error),
}

impl Refused {
    /// Whether the file may have been changed all the same.
    pub fn may_be_saved(&self) -> bool
        ensures { IsTrue result ↔ MayBeSaved self.now }
    {
        matches!(
            self,
            Refused::Change(ChangeFault::Commit(CommitFault::MaybeSaved(_)))
                | Refused::Change(ChangeFault::LeftInLog(_))
        )
    }
}

impl From<InPlaceFault> for Refused {
    ghost from_gives = { λ fault refused. refused ≡ Unfit fault };

    fn from(fault: InPlaceFault) -> Refused {
        Refused::Unfit(fault)
    }
}

impl From<io::Error> for Refused {
    fn from(error: io::Error) -> Refused {
        Refused::Unfit(InPlaceFault::from(error))
    }
}

impl From<LogFault> for Refused {
    fn from(fault: LogFault) -> Refused {
        match fault {
            LogFault::NoLog => Refused::Unfit(InPlaceFault::NoLog),
            LogFault::Read(Error::Io(error)) => Refused::from(error),
            LogFault::Read(Error::OutOfMemory) => Refused::Unfit(InPlaceFault::Memory),
            LogFault::Read(error) => Refused::Change(ChangeFault::Open(error)),
        }
    }
}

impl From<FilesFault> for Refused {
    ghost from_gives = { IsOfFault };

    fn from(fault: FilesFault) -> Refused {
        match fault {
            FilesFault::OthersLog => Refused::Unfit(InPlaceFault::OthersLog),
            FilesFault::NotAsOpened => Refused::Unfit(InPlaceFault::NotAsOpened),
            FilesFault::Header(fault) => Refused::Damaged(DirectFault::File(fault)),
            FilesFault::Read(Error::OutOfMemory)
            | FilesFault::Uncopied(Error::OutOfMemory)
            | FilesFault::Change(ChangeFault::Open(Error::OutOfMemory))
            | FilesFault::Change(ChangeFault::Commit(CommitFault::NotSaved(Error::OutOfMemory))) =>
                { Refused::Unfit(InPlaceFault::Memory) }
            FilesFault::Read(error) => Refused::Change(ChangeFault::Open(error)),
            FilesFault::Uncopied(error) => Refused::Unrecovered(error),
            // The file is a list of blocks, so what doesn't fit it is the log.
            FilesFault::Change(ChangeFault::Open(Error::Corrupt)) => {
                Refused::Unfit(InPlaceFault::UnfitLog)
            }
            FilesFault::Change(ChangeFault::Refused(DirectFault::Memory)) => {
                Refused::Unfit(InPlaceFault::Memory)
            }
            FilesFault::Change(ChangeFault::Refused(fault)) => Refused::Damaged(fault),
            FilesFault::Change(fault) => Refused::Change(fault),
        }
    }
}

impl From<SaveFilesFault> for Refused {
    ghost from_gives = { IsOfSaveFault };

    fn from(fault: SaveFilesFault) -> Refused {
        match fault {
            SaveFilesFault::Draft(SaveFault::Memory) => Refused::Unfit(InPlaceFault::Memory),
            SaveFilesFault::Draft(fault) => Refused::Unwritten(fault),
            SaveFilesFault::Content(DifferingFault::Memory) => Refused::Unfit(InPlaceFault::Memory),
            SaveFilesFault::Content(fault) => Refused::Uncompared(fault),
            SaveFilesFault::Files(fault) => Refused::from(fault),
        }
    }
}
