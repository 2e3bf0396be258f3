ghost use Rattle.std.specs.Prelude.{◌≡◌, ℕ, IfErr, IfOk, List, false};
ghost use Rattle.exh_saving.specs.Answer.{IsHoldTold};

use crate::{Call, Disk, DiskFault};
use std::io::ErrorKind;

/// Takes the lock of an opened file.
///
/// `Busy`: another run has it. `System`: the system has no locks for it.
pub fn hold<D: Disk>(disk: &mut D, opened: &D::Opened) -> Result<D::Held, DiskFault>
    ensures stands { IfOk result (λ held. (path : List ℕ) → D.stands held path ≡ false) }
    ensures err { IfErr result (IsHoldTold D.answers) }
    ensures crash { D.history disk.new ≡ D.history disk.old }
{
    match disk.hold(opened) {
        Ok(held) => Ok(held),
        Err(error) => Err(DiskFault::busy_at(ErrorKind::WouldBlock, Call::Hold, error)),
    }
}
