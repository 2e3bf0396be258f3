//! The writers' lock of a page file, which is waited for.
ghost use Rattle.std.specs.Prelude.{IfErr};
ghost use Rattle.exh_system.specs.Fault.{IsLockFault};

use crate::{InPlaceFault, LockWay, lock_within};
use std::fs::File;
use std::io::ErrorKind;

/// Takes the writers' lock of an open file, which lasts until all its handles are dropped, and waits for it so many seconds.
///
/// `Busy`: another run had it all the while. `System`: the system has no locks for the file.
pub fn lock_soon(rt: &HostRuntime, file: &File, seconds: u64) -> Result<(), InPlaceFault>
    ensures err { IfErr result IsLockFault }
{
    take_soon(rt, file, LockWay::Alone, seconds)
}

/// Takes the lock that keeps writers out, and not other readers, and waits for it so many seconds.
///
/// `Busy`: a writer had the lock all the while. `System`: the system has no locks for the file.
pub fn share_soon(rt: &HostRuntime, file: &File, seconds: u64) -> Result<(), InPlaceFault>
    ensures err { IfErr result IsLockFault }
{
    take_soon(rt, file, LockWay::Shared, seconds)
}

fn take_soon(rt: &HostRuntime, file: &File, way: LockWay, seconds: u64) -> Result<(), InPlaceFault>
    ensures err { IfErr result IsLockFault }
{
    match lock_within(rt, file, way, seconds) {
        Err(error) if error.kind() == ErrorKind::WouldBlock => Err(InPlaceFault::Busy),
        Err(error) => Err(InPlaceFault::System(error)),
        Ok(()) => Ok(()),
    }
}
