//! Wards that are saved over the page file of the system that they came of, and calls that it answers in the state that was
//! opened.

use crate::Refused;
use crate::cutting::cut_unsaved;
use crate::locked::lock_again;
use crate::system_files::{close, opened_locked, options};
use exh_calls::Call;
use exh_paged::{Answered, Draft, answer_over, save_files};
use exh_system::{Pages, draw_stamp};
use sqlite_std_file::Wary;
use std::fs::File;

/// Saves a draft over the open file of a path, of which just the blocks that differ are written: it must be there still, in
/// the state that has this stamp. It is locked, for which it waits so many seconds.
///
/// Errors: as of `change_at`; `Unfit` with `NotAsOpened` where it isn't.
pub fn save_in_place<P: Pages + Drop>(
    rt: &HostRuntime,
    path: &str,
    file: &File,
    stamp: u64,
    draft: Draft<P>,
    seconds: u64,
) -> Result<(), Refused> {
    let whole = lock_again(rt, path, file, seconds)?;
    let files = opened_locked(rt, file, whole.as_str(), Wary)?;
    let (saved, files) = save_files(rt.alloc(), files, options(rt)?, stamp, draft);
    close(rt, file, whole.as_str(), saved.is_ok(), files);
    match saved {
        Ok(()) => Ok(()),
        Err(fault) => Err(cut_unsaved(rt, whole.as_str(), file, Refused::from(fault))),
    }
}

/// Answers calls by the open file of a path as one change: it must be there still, in the state that has this stamp. It is
/// locked, for which it waits so many seconds. With the replies comes the stamp that the file has then.
///
/// Errors: as of `change_at`; `Unfit` with `NotAsOpened` where it isn't.
pub fn answer_in_place(
    rt: &HostRuntime,
    path: &str,
    file: &File,
    stamp: u64,
    calls: &[Call],
    seconds: u64,
) -> Result<Answered, Refused> {
    let whole = lock_again(rt, path, file, seconds)?;
    let new = draw_stamp(rt)?;
    let files = opened_locked(rt, file, whole.as_str(), Wary)?;
    let (answered, files) = answer_over(rt.alloc(), files, options(rt)?, stamp, calls, new);
    close(rt, file, whole.as_str(), answered.is_ok(), files);
    match answered {
        Ok(answered) => Ok(answered),
        Err(fault) => Err(cut_unsaved(rt, whole.as_str(), file, Refused::from(fault))),
    }
}
