use sqlite_pager::Error;
use thiserror::Error as Fault;

/// Why what stands at a log's name isn't opened for writing. It is as before.
#[derive(Clone, Copy, Debug, Fault)]
pub enum LogFault {
    /// It is no log of a page file, and isn't one that was begun.
    #[error("what stands there is no log of exhash: move it")]
    NoLog,
    /// It couldn't be read.
    #[error("{0}")]
    Read(Error),
}
