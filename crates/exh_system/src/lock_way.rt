//! The writers' lock of a file of the system, which is waited for.
ghost use Rattle.std.specs.Prelude.{◌≤◌};
ghost use Rattle.std.specs.Duration.{as_nanos};

use std::fs::{File, TryLockError};
use std::io;
use std::thread::sleep;
use std::time::{Duration, Instant};

/// How many seconds a lock is waited for, where nobody says otherwise.
pub const WAIT: u64 = 5;

// Who waits asks again after so many milliseconds at least, and at most.
const LEAST_PAUSE: u64 = 2;

const MOST_PAUSE: u64 = 20;

/// Whether others may have a lock at the same time.
#[derive(Clone, Copy)]
pub enum LockWay {
    Alone,
    Shared,
}

/// Takes the lock of an open file, which lasts until all its handles are dropped, and waits for it so many seconds.
///
/// `WouldBlock`: another process had it all the while. Others: the system has no locks for the file.
pub fn lock_within(rt: &HostRuntime, file: &File, way: LockWay, seconds: u64) -> io::Result<()> {
    let start = Instant::now(rt)?;
    let wait = Duration::from_secs(seconds);
    for _ in 0..seconds.saturating_mul(1000 / LEAST_PAUSE) {
        match try_once(file, way) {
            Err(TryLockError::WouldBlock) => {}
            Err(TryLockError::Error(error)) => return Err(error),
            Ok(()) => return Ok(()),
        }
        let passed = start.elapsed(rt)?;
        if passed >= wait {
            break;
        }
        sleep(rt, pause_after(passed));
    }
    Ok(try_once(file, way)?)
}

fn try_once(file: &File, way: LockWay) -> Result<(), TryLockError> {
    match way {
        LockWay::Alone => file.try_lock(),
        LockWay::Shared => file.try_lock_shared(),
    }
}

/// A pause of 2 to 20 milliseconds, which the nanoseconds that have passed choose, so that two that wait don't ask in step.
pub fn pause_after(passed: Duration) -> Duration
    ensures least { 2_000_000 ≤ as_nanos result }
    ensures most { as_nanos result ≤ 20_000_000 }
{
    let chance = u64::from(passed.subsec_nanos()) % (MOST_PAUSE - LEAST_PAUSE + 1);
    Duration::from_millis(LEAST_PAUSE + chance)
}
