//! The run of a backup.
ghost use Rattle.std.specs.Prelude.{◌≡◌};
ghost use Rattle.exh_everyday.specs.Endings.{backup_status, copied_status};
ghost use Rattle.exh_everyday.specs.Runs.{BackupEnds};

use exh_transfer::{BackupFault, Run, Status, StoreError, backup_within, tell_refused, unread_at};

/// Copies one state of the page file to a new path at which nothing is.
pub(crate) fn back_up(run: &Run<'_>, new: &str) -> Status
    ensures { BackupEnds result }
{
    let copied = backup_within(run.rt, run.path, new, run.seconds);
    end_backup(run, new, copied)
}

// Ends a backup by what the library answers.
fn end_backup(run: &Run<'_>, new: &str, copied: Result<(), BackupFault>) -> Status
    ensures { result ≡ copied_status copied }
{
    match copied {
        Ok(()) => Status::Done,
        Err(fault) => refuse_backup(run, new, fault),
    }
}

// Says why there is no copy, and gives the status with which the program ends. A file that doesn't begin as a page file is none,
// whatever its length.
fn refuse_backup(run: &Run<'_>, new: &str, fault: BackupFault) -> Status
    ensures { result ≡ backup_status fault }
{
    let status = backup_status(&fault);
    match fault {
        BackupFault::File(cause) => {
            let cause = unread_at(run.rt, run.path, cause);
            tell_refused(run.rt, run.path, &cause);
        }
        BackupFault::Copy(cause) => tell_refused(run.rt, new, &cause),
    }
    status
}

// The status where there is no copy, or its folder isn't synchronized.
fn backup_status(fault: &BackupFault) -> Status
    ensures { result ≡ backup_status fault.now }
{
    match fault {
        BackupFault::File(StoreError::Busy | StoreError::Changed) => Status::Busy,
        BackupFault::Copy(StoreError::Busy) => Status::Busy,
        BackupFault::Copy(StoreError::Exists) => Status::Missing,
        BackupFault::Copy(StoreError::Unsynchronized(_)) => Status::Done,
        _ => Status::Refused,
    }
}
