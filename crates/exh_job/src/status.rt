//! The program's exit status.
ghost use Rattle.std.specs.Prelude.{◌≡◌};
ghost use Rattle.std.specs.Process.{exit_status};
ghost use Rattle.exh_job.specs.ExitStatus.{code_of, fault_status, file_status};

use exh_command::CliFault;
use exh_report::{ReportFault, Verdict};
use std::process::ExitCode;

/// How the program ended.
#[derive(Clone, Copy)]
pub enum Status {
    /// The run went to its end, and the file that it is about is legal: 0.
    Done,
    /// The run or the file was refused: 1.
    Refused,
    /// The command line names no job: 2.
    WrongWords,
    /// The file hasn't the key that is asked for, or stays as it was; or something is at a new path: 3.
    Missing,
    /// Another process had the file all the while, or changed it again and again while it was read: 4.
    Busy,
    /// Some of it was done, and standard error says of the rest: 5.
    Partly,
}

impl Status {
    /// The status of a run about a file.
    pub fn of_file(outcome: Result<Verdict, ReportFault>) -> Status
        ensures { result ≡ file_status outcome }
    {
        match outcome {
            Ok(Verdict::Legal) => Status::Done,
            Ok(Verdict::Refused) | Err(_) => Status::Refused,
        }
    }

    /// The status where the command line gives no job.
    pub fn of_fault(fault: &CliFault) -> Status
        ensures { result ≡ fault_status fault.now }
    {
        match fault {
            CliFault::Wrong(_) => Status::WrongWords,
            CliFault::Memory => Status::Refused,
        }
    }

    /// What the program hands to the system.
    pub fn code(self) -> ExitCode
        ensures { exit_status result ≡ code_of self }
    {
        ExitCode::from(match self {
            Status::Done => 0,
            Status::Refused => 1,
            Status::WrongWords => 2,
            Status::Missing => 3,
            Status::Busy => 4,
            Status::Partly => 5,
        })
    }
}
