//! Readings of one state of a page file, beside others that change it.
ghost use Rattle.std.specs.Prelude.{IfErr, IfOk, IfSome};
ghost use Rattle.exh_map.specs.Sizes.{IsOfOpening};

use crate::waiting::opened_there;
use crate::{
    InPlaceFault, Reading, Refused, Standing, StoreError, pause_after, read_one_state, stand_still,
};
use std::thread::sleep;
use std::time::{Duration, Instant};

// How many of the least pauses fit into a second.
const PAUSES: u64 = 500;

/// What a reading finds in one state of the file of a path. Writers are kept from it while it is read; where one has its
/// lock, it is read beside that one, as `read_beside` reads it. Where what a log has can't be copied into the file, for want of
/// room or permission, both are read in memory.
///
/// Errors: as of `read_beside`.
pub fn read_still<R: Reading>(
    rt: &HostRuntime,
    path: &str,
    reading: &mut R,
    seconds: u64,
) -> Result<R::Found, StoreError>
    ensures found { IfOk result R.gives }
    ensures err { IfErr result IsOfOpening }
{
    match read_held(rt, path, reading, 0)? {
        Some(found) => Ok(found),
        None => read_beside(rt, path, reading, seconds),
    }
}

/// What a reading finds in one state of the file of a path, beside writers. For so many seconds it is read twice without their
/// lock, and, where it was changed meanwhile and the lock is free within a second, once under it, by turns.
///
/// `Absent`: nothing is there, or an empty file. `Busy`: it was changed all the while, and the lock never free when asked for.
/// Others: it isn't opened, as they say.
pub fn read_beside<R: Reading>(
    rt: &HostRuntime,
    path: &str,
    reading: &mut R,
    seconds: u64,
) -> Result<R::Found, StoreError>
    ensures found { IfOk result R.gives }
    ensures err { IfErr result IsOfOpening }
{
    let start = Instant::now(rt)?;
    for _turn in 0..turns_within(seconds) {
        match read_one_state(rt, path, reading, 0) {
            Ok(found) => return Ok(found),
            Err(Refused::Unfit(InPlaceFault::Restless)) => {}
            Err(refused) => return Err(StoreError::from(refused)),
        }
        if let Some(found) = read_held(rt, path, reading, seconds.min(1))? {
            return Ok(found);
        }
        let passed = start.elapsed(rt)?;
        if passed >= Duration::from_secs(seconds) {
            break;
        }
        sleep(rt, pause_after(passed));
    }
    Err(StoreError::Busy)
}

// How often it is read so at most: once, and again behind each of the least pauses, of two milliseconds.
fn turns_within(seconds: u64) -> u64 {
    seconds.saturating_mul(PAUSES).saturating_add(1)
}

// What a reading finds in the file of a path while writers are kept from it. `None`: one had its lock for so many seconds, or
// it was changed all the while.
fn read_held<R: Reading>(
    rt: &HostRuntime,
    path: &str,
    reading: &mut R,
    seconds: u64,
) -> Result<Option<R::Found>, StoreError>
    ensures found { IfOk result (λ found. IfSome found R.gives) }
    ensures err { IfErr result IsOfOpening }
{
    let (file, is_held) = opened_there(rt, path, seconds)?;
    if !is_held {
        return Ok(None);
    }
    match stand_still(rt, path, &file, seconds) {
        Ok(Standing::InMemory(found)) => Ok(Some(reading.read_bytes(found.bytes()))),
        Ok(Standing::Whole | Standing::Replaced) => Ok(Some(reading.read(&file))),
        Err(Refused::Unfit(InPlaceFault::Busy | InPlaceFault::Restless)) => Ok(None),
        Err(refused) => Err(StoreError::from(refused)),
    }
}
