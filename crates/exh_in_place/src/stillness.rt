//! Reading whole: writers are kept out meanwhile.

use crate::Refused;
use crate::recovery::recover_to_read;
use exh_system::{Begun, InPlaceFault, begin_reading, front_of, lock_soon, share_soon};
use std::fs::File;

// How often what was cut off is recovered, which others may cut off again.
const TRIES: u32 = 100;

/// What an open file is from which writers are to be kept.
pub(crate) enum Stillness {
    /// It isn't one that is changed in place, and isn't locked.
    Replaced,
    /// It has all by itself.
    Whole,
    /// Its header is damaged, and there is a log that may have a change, which may be another file's.
    Damaged,
}

/// Keeps writers from the open file of a path, until it is unlocked or dropped, so that it can be read whole; whether it is
/// one that is changed in place, and so is locked. Other readers aren't kept out. A change that was cut off is recovered
/// before, but into no file whose header is damaged, unless the log was being copied into that. For each lock it waits so many
/// seconds.
///
/// `Busy`: writers had the lock all the while. `System`: the system has no locks, or doesn't say what is there. Others:
/// what was cut off isn't recovered.
pub fn hold_still(
    rt: &HostRuntime,
    path: &str,
    file: &File,
    seconds: u64,
) -> Result<bool, Refused> {
    match held_still(rt, path, file, seconds)? {
        Stillness::Replaced => Ok(false),
        Stillness::Whole | Stillness::Damaged => Ok(true),
    }
}

/// The same, and what the file is.
pub(crate) fn held_still(
    rt: &HostRuntime,
    path: &str,
    file: &File,
    seconds: u64,
) -> Result<Stillness, Refused> {
    if front_of(file)?.is_none() {
        return Ok(Stillness::Replaced);
    }
    for _ in 0..TRIES {
        share_soon(rt, file, seconds)?;
        match begin_reading(rt, path, file)? {
            Begun::State(_) | Begun::Replaced => return Ok(Stillness::Whole),
            Begun::Unsettled => {}
        }
        lock_soon(rt, file, seconds)?;
        if !recover_to_read(rt, path, file)? {
            share_soon(rt, file, seconds)?;
            return Ok(Stillness::Damaged);
        }
    }
    Err(Refused::Unfit(InPlaceFault::Restless))
}
