use crate::FilesFault;
use exh_commit::DifferingFault;
use exh_file::SaveFault;
use thiserror::Error as Fault;

/// Why wards weren't saved over a page file, or may not have been.
#[derive(Debug, Drop, Fault)]
pub enum SaveFilesFault {
    /// The wards couldn't be written. Nothing was changed.
    #[error("{0}")]
    Draft(SaveFault),
    /// What they are written as couldn't be compared with the file, or is shorter than it. Nothing was changed.
    #[error("{0}")]
    Content(DifferingFault),
    /// The two couldn't be opened, the file has another stamp, the header isn't one, or the edits weren't saved, or may not have been, as the fault says.
    #[error("{0}")]
    Files(FilesFault),
}
