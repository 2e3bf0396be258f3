ghost use Rattle.std.specs.Prelude.{◌≡◌, IfErr, IfOk};
ghost use Rattle.exh_saving.specs.Answer.{IsLeading, IsTold};
ghost use Rattle.exh_saving.specs.declared.fault.Call.TheVariants.{Ask};

use crate::{Call, Disk, DiskFault};
use std::alloc::Global;
use std::io::ErrorKind;

/// Whether a path leads to another one, which has no links.
///
/// `System`: the system doesn't say where it leads.
pub fn leads_to<D: Disk>(
    alloc: Global,
    disk: &mut D,
    named: &str,
    path: &str,
) -> Result<bool, DiskFault>
    ensures leads { IfOk result (IsLeading D.leads D.answers named.now path.now) }
    ensures err { IfErr result (IsTold D.answers Ask) }
    ensures crash { D.history disk.new ≡ D.history disk.old }
{
    match disk.whole_path(alloc, named) {
        Ok(whole) => Ok(whole.as_str() == path),
        Err(error) if error.kind() == ErrorKind::NotFound => Ok(false),
        Err(error) => Err(DiskFault::at(Call::Ask, error)),
    }
}
