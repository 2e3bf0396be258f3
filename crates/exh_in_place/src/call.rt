//! Operations that a page file of the system answers in place.

use crate::Refused;
use crate::cutting::cut_unsaved;
use crate::locked::{Locked, begin, locked_at};
use crate::system_files::{close, opened_locked};
use exh_calls::{Call, Reply};
use exh_paged::{Expected, Operation, PutIf, answer_files};
use sqlite_std_file::Wary;

/// Answers a call by the page file of a path in place, where that is of version 3; `None` where it is of another version, or
/// isn't opened. It is locked before it is read, for which it waits so many seconds.
///
/// `Unfit`, `Damaged`: nothing was changed. `Unrecovered`: nothing was changed, and what a cut-off run left stands in the log
/// still. `Change`: it wasn't changed, or may have been, as the fault says.
pub fn change_at(
    rt: &HostRuntime,
    path: &str,
    call: &Call,
    seconds: u64,
) -> Result<Option<Reply>, Refused> {
    answer_at(rt, path, call, seconds)
}

/// Makes a put that has a condition in the page file of a path in place, or not, as `change_at` has it answer a call.
///
/// Errors: as of `change_at`.
pub fn put_at(
    rt: &HostRuntime,
    path: &str,
    put: &PutIf,
    seconds: u64,
) -> Result<Option<Reply>, Refused> {
    answer_at(rt, path, put, seconds)
}

// Answers an operation by the page file of a path, where that is of version 3.
fn answer_at<O: Operation>(
    rt: &HostRuntime,
    path: &str,
    operation: &O,
    seconds: u64,
) -> Result<Option<O::Answer>, Refused> {
    match locked_at(rt, path, seconds)? {
        Some(locked) => Ok(Some(answer_locked(rt, &locked, operation)?)),
        None => Ok(None),
    }
}

// Answers an operation by a page file that is locked.
fn answer_locked<O: Operation>(
    rt: &HostRuntime,
    locked: &Locked,
    operation: &O,
) -> Result<O::Answer, Refused> {
    let whole = locked.whole.as_str();
    let it = begin(rt, locked)?;
    let files = opened_locked(rt, &locked.file, whole, Wary)?;
    let (answer, files) = answer_files(
        rt.alloc(),
        files,
        it.options,
        Expected::Own,
        operation,
        it.stamp,
    );
    close(rt, &locked.file, whole, answer.is_ok(), files);
    match answer {
        Ok(answer) => Ok(answer),
        Err(fault) => Err(cut_unsaved(rt, whole, &locked.file, Refused::from(fault))),
    }
}
