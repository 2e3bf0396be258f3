use exh_commit::ChangeFault;
use exh_format::FileFault;
use sqlite_pager::Error;
use thiserror::Error as Fault;

/// Why a page file wasn't changed, or may not have been.
#[derive(Clone, Copy, Debug, Fault)]
pub enum FilesFault {
    /// The log isn't this file's. Nothing was changed.
    #[error("the log beside it, of the same name with -wal behind it, isn't this file's: move it away, keep it, and try check")]
    OthersLog,
    /// The file has another stamp than the one with which it was opened. Nothing was changed.
    #[error("the page file was changed since it was opened")]
    NotAsOpened,
    /// The header fails this test. Nothing was changed.
    #[error("{0}")]
    Header(FileFault),
    /// The header couldn't be read. Nothing was changed.
    #[error("{0}")]
    Read(Error),
    /// What a run that was cut off left in the log couldn't be copied into the file, and stands in the log still. Nothing of
    /// this change was saved.
    #[error("a change stands in the log beside the file, and can't be copied into it: {0}")]
    Uncopied(Error),
    /// The two couldn't be opened, the changer refused, or the edits weren't saved, or may not have been, as the fault says.
    #[error("{0}")]
    Change(ChangeFault),
}
