use std::hint::spin_loop;
use std::sync::{Mutex, MutexGuard, Wait};
use std::thread::yield_now;

// How often a lock is looked at before its taker sleeps: some 20 microseconds long.
const LOOKS: u32 = 400;

/// Takes a lock. It may wait. What is done under a lock is shorter than a sleep, so the lock is looked at
/// for a while first, also where others sleep for it already.
pub fn lock_soon<'a, T, R: Wait>(mutex: &'a Mutex<T>, rt: &R) -> MutexGuard<'a, T> {
    for _ in 0..LOOKS {
        if let Some(guard) = mutex.try_lock() {
            return guard;
        }
        spin_loop();
    }
    mutex.lock(rt)
}

/// Lets other threads run, and then takes a lock as `lock_soon` does: for who takes locks round after round
/// and never rests. Such a thread runs until it is stopped, and where that is in a turn of a lock, all who
/// wait for the lock wait until it runs again.
pub(crate) fn yield_and_lock<'a, T, R: Wait>(mutex: &'a Mutex<T>, rt: &R) -> MutexGuard<'a, T> {
    yield_now();
    lock_soon(mutex, rt)
}
