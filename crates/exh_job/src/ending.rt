//! How the program ends after the run of a job.

use crate::job_path::JobPath;
use crate::{FileWards, Status};
use exh_command::PageFileVersion;

/// How the program ends after the run of a job.
#[derive(Drop)]
pub enum Ending<'w> {
    /// With this status.
    Over(Status),
    /// After these wards are saved at a job's path.
    Save {
        path: JobPath<'w>,
        wards: FileWards,
    },
    /// After these wards are saved as a new file of this version at a job's path, where nothing is.
    SaveNew {
        path: JobPath<'w>,
        wards: FileWards,
        version: PageFileVersion,
    },
}
