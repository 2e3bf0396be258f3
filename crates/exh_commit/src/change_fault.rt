ghost use Rattle.std.specs.Prelude.{◌≡◌};
ghost use Rattle.exh_commit.specs.declared.change_fault.ChangeFault.TheVariants.{Commit, Refused};

use crate::CommitFault;
use exh_edits::DirectFault;
use sqlite_pager::Error;
use thiserror::Error as Fault;

/// Why a file wasn't changed, or may not have been.
#[derive(Clone, Copy, Debug, Fault)]
pub enum ChangeFault {
    /// The file and its log couldn't be opened. Nothing was changed.
    #[error("{0}")]
    Open(Error),
    /// The change was refused, or what it asks of the file couldn't be read. Nothing was changed.
    #[error("{0}")]
    Refused(DirectFault),
    /// The edits weren't committed, or may not have been, as the fault says.
    #[error("{0}")]
    Commit(CommitFault),
    /// The edits were committed and stand in the log. They couldn't be moved into the file, which the next open does.
    #[error("the change was saved, and stands in the log beside the file: {0}")]
    LeftInLog(Error),
}

impl From<DirectFault> for ChangeFault {
    ghost from_gives = { λ cause fault. fault ≡ Refused cause };

    fn from(cause: DirectFault) -> ChangeFault {
        ChangeFault::Refused(cause)
    }
}

impl From<CommitFault> for ChangeFault {
    ghost from_gives = { λ cause fault. fault ≡ Commit cause };

    fn from(cause: CommitFault) -> ChangeFault {
        ChangeFault::Commit(cause)
    }
}
