//! Where the run of a job saves.
ghost use Rattle.std.specs.Prelude.{◌≡◌};
ghost use Rattle.exh_job.specs.JobPath.{at, path_of};

use exh_command::Job;

/// A path at which the run of a job saves: there is none but what `path_of` makes of a job.
#[derive(Clone, Copy)]
pub struct JobPath<'w> {
    path: &'w str,
}

impl<'w> JobPath<'w> {
    pub fn path(self) -> &'w str
        ensures { result ≡ self.entry.path }
    {
        self.path
    }
}

/// Where the run of a job saves, if it saves.
pub fn path_of<'w>(job: &Job<'w>) -> Option<JobPath<'w>>
    ensures { result ≡ path_of job.now }
{
    match job {
        Job::Serve { save, .. } => at(*save),
        Job::Load { path, .. } => at(Some(*path)),
        Job::Convert { new, .. } => at(Some(*new)),
        Job::Check { .. }
        | Job::Dump { .. }
        | Job::Pairs { .. }
        | Job::Storm { .. }
        | Job::Version
        | Job::Manual { .. } => None,
    }
}

fn at<'w>(path: Option<&'w str>) -> Option<JobPath<'w>>
    ensures { result ≡ at path.entry }
{
    let path = path?;
    Some(JobPath { path })
}
