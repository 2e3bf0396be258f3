//! Reading whole, also where what a log has can't be copied into the file.

use crate::in_memory::in_memory;
use crate::recovery::recover_to_read;
use crate::stillness::{Stillness, held_still};
use crate::{InMemory, Refused};
use exh_system::{InPlaceFault, share_soon};
use std::fs::File;

// How often a log is looked for anew that others may copy meanwhile.
const TRIES: u32 = 100;

/// How a file stands still that is read whole.
#[derive(Drop)]
pub enum Standing {
    /// It isn't one that is changed in place.
    Replaced,
    /// Writers are kept from it, and it has all by itself.
    Whole,
    /// What its log has can't be copied into it, for want of room or permission, or may not be, since its header is damaged:
    /// both together. Writers aren't kept from it.
    InMemory(InMemory),
}

/// Keeps writers from the open file of a path, as `hold_still` does; where what a log has can't be copied into the file, the
/// two are put together in memory. So they are, and standard error says so, where the file's header is damaged, unless the log
/// was being copied into that. For each lock it waits so many seconds.
///
/// `Busy`: writers had the lock all the while. `System`: the system has no locks, or doesn't say what is there. Others: the
/// log isn't the file's, or may not be read.
pub fn stand_still(
    rt: &HostRuntime,
    path: &str,
    file: &File,
    seconds: u64,
) -> Result<Standing, Refused> {
    for _ in 0..TRIES {
        let found = match held_still(rt, path, file, seconds) {
            Ok(Stillness::Whole) => return Ok(Standing::Whole),
            Ok(Stillness::Replaced) => return Ok(Standing::Replaced),
            Ok(Stillness::Damaged) => in_memory(rt, path, file)?,
            Err(refused) if !refused.is_of_copying() => return Err(refused),
            Err(_) => {
                share_soon(rt, file, seconds)?;
                in_memory(rt, path, file)?
            }
        };
        if let Some(found) = found {
            let _ = file.unlock();
            return Ok(Standing::InMemory(found));
        }
    }
    Err(Refused::Unfit(InPlaceFault::Restless))
}

/// The open file of a path with what the log beside it has, put together in memory; neither is changed. `None` where no log is
/// there that may have a change.
///
/// `Busy`: a writer has the lock. Others: as of `stand_still`.
pub fn read_with_log(
    rt: &HostRuntime,
    path: &str,
    file: &File,
) -> Result<Option<InMemory>, Refused> {
    share_soon(rt, file, 0)?;
    let found = in_memory(rt, path, file);
    let _ = file.unlock();
    found
}

/// Recovers the open file of a path, where nobody has its writers' lock, and lets it go. Where what the log has can't be copied
/// into it, or its header is damaged, the answer is the two together.
///
/// Errors: as of `stand_still`.
pub(crate) fn recover_left(
    rt: &HostRuntime,
    path: &str,
    file: File,
) -> Result<Option<InMemory>, Refused> {
    if file.try_lock().is_err() {
        return Ok(None);
    }
    match recover_to_read(rt, path, &file) {
        Ok(true) => return Ok(None),
        Err(refused) if !refused.is_of_copying() => return Err(refused),
        _ => {}
    }
    // Others may read meanwhile.
    match file.try_lock_shared() {
        Ok(()) => in_memory(rt, path, &file),
        Err(_) => Ok(None),
    }
}
