//! The program's exit status.
ghost use Rattle.std.specs.Prelude.{◌≡◌, IsTrue, IsFalse};
ghost use Rattle.std.specs.Process.{exit_status};
ghost use Rattle.exh_fixtures.specs.RunsStatus.{code_of};

use std::process::ExitCode;

/// How the program ended.
#[derive(Clone, Copy)]
pub enum Status {
    /// No step differed: 0.
    Same,
    /// Some step differed: 1.
    Differed,
    /// The words name no run: 2.
    WrongWords,
}

impl Status {
    /// The status of runs of which some step differed, or none.
    pub fn of_runs(has_differed: bool) -> Status
        ensures differed { IsTrue has_differed → result ≡ Status.Differed }
        ensures same { IsFalse has_differed → result ≡ Status.Same }
    {
        if has_differed {
            Status::Differed
        } else {
            Status::Same
        }
    }

    /// What the program hands to the system.
    pub fn code(self) -> ExitCode
        ensures { exit_status result ≡ code_of self }
    {
        ExitCode::from(match self {
            Status::Same => 0,
            Status::Differed => 1,
            Status::WrongWords => 2,
        })
    }
}
