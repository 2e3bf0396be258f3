//! Reading without a lock: what is read is one state of a file, or it is read again.
ghost use Rattle.std.specs.Prelude.{IfOk};

use crate::Refused;
use crate::standing::recover_left;
use exh_system::{Begun, InPlaceFault, begin_reading, open_regular, pause_after};
use std::fs::File;
use std::thread::sleep;
use std::time::{Duration, Instant};

// How many of the least pauses, of two milliseconds, fit into a second.
const PAUSES: u64 = 500;

/// What is read of an open file, and may be read of it again.
pub trait Reading {
    /// What reading gives.
    type Found: Drop;

    /// What each reading gives.
    ghost gives: { Self.Found → Type 0 };

    /// Reads it.
    fn read(&mut self, file: &File) -> Self::Found
        ensures { gives result };

    /// Reads the bytes of a page file in memory in its place.
    fn read_bytes(&mut self, bytes: &[u8]) -> Self::Found
        ensures { gives result };
}

/// Reads the file of a path so that all that is read is one state of it: where it is of version 3, its stamp is looked at
/// and then its log looked for, before and, in the other order, behind the reading. Else it is read again: once at once, and
/// for so many seconds. A change that was cut off is recovered, if nobody is at work on the file; where it can't be copied into
/// the file, for want of room or permission, the file is read with its log in memory.
///
/// `System`: the file isn't opened, as one that isn't regular, or the system doesn't say what is there. `Restless`: it was
/// changed all the while. Others: what was cut off isn't recovered.
pub fn read_one_state<R: Reading>(
    rt: &HostRuntime,
    path: &str,
    reading: &mut R,
    seconds: u64,
) -> Result<R::Found, Refused>
    ensures { IfOk result R.gives }
{
    let start = Instant::now(rt)?;
    for turn in 0..turns_within(seconds) {
        let file = open_regular(rt, path)?;
        match begin_reading(rt, path, &file)? {
            Begun::Replaced => return Ok(reading.read(&file)),
            Begun::State(state) => {
                let found = reading.read(&file);
                if state.is_still(rt, &file)? {
                    return Ok(found);
                }
            }
            Begun::Unsettled => {}
        }
        if let Some(found) = recover_left(rt, path, file)? {
            return Ok(reading.read_bytes(found.bytes()));
        }
        let passed = start.elapsed(rt)?;
        if turn > 0 && passed >= Duration::from_secs(seconds) {
            break;
        }
        if turn > 0 {
            sleep(rt, pause_after(passed));
        }
    }
    Err(Refused::Unfit(InPlaceFault::Restless))
}

// How often a file is read at most: twice, and again behind each pause that fits into so many seconds.
fn turns_within(seconds: u64) -> u64 {
    seconds.saturating_mul(PAUSES).saturating_add(2)
}
