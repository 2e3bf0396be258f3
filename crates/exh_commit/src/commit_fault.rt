ghost use Rattle.std.specs.Prelude.{◌≡◌};
ghost use Rattle.exh_commit.specs.declared.commit_fault.CommitFault.TheVariants.{NotSaved};

use sqlite_pager::Error;
use thiserror::Error as Fault;

/// Why edits weren't committed, or may not have been.
#[derive(Clone, Copy, Debug, Fault)]
pub enum CommitFault {
    /// The block of an edit would stand at this place, behind the end of the file. Nothing was committed.
    #[error("the file has no block {0}, and ends before it")]
    Place(u32),
    /// Nothing was committed.
    #[error("nothing was saved: {0}")]
    NotSaved(Error),
    /// The end of the commit failed: the edits were committed, all of them, or none was. The next open tells which.
    #[error("the change may have been saved: {0}")]
    MaybeSaved(Error),
}

impl From<Error> for CommitFault {
    ghost from_gives = { λ error fault. fault ≡ NotSaved error };

    fn from(error: Error) -> CommitFault {
        CommitFault::NotSaved(error)
    }
}
