//! Calls that page files of version 3 answer in place.
ghost use Rattle.std.specs.Prelude.{IfErr};
ghost use Rattle.exh_map.specs.Sizes.{IsOther};

use crate::PutIf;
use exh_calls::{Call, Reply};
use exh_map::{StoreError, change_at, opened_at, put_at, see_old_version};

/// The reply of the page file of a path to a call, by which it is changed in place. For its lock it waits so many seconds.
///
/// `OldVersion`: it is of version 1 or 2. `Absent`: nothing is there, or an empty file. Others: as of `Direct::put`.
pub(crate) fn changed_at(
    rt: &HostRuntime,
    path: &str,
    call: &Call,
    seconds: u64,
) -> Result<Reply, StoreError>
    ensures { IfErr result IsOther }
{
    match change_at(rt, path, call, seconds)? {
        Some(reply) => Ok(reply),
        None => Err(unchanged(rt, path)),
    }
}

/// Its reply to a put that has a condition, in the same way.
///
/// Errors: as of `changed_at`.
pub(crate) fn put_if_at(
    rt: &HostRuntime,
    path: &str,
    put: &PutIf,
    seconds: u64,
) -> Result<Reply, StoreError>
    ensures { IfErr result IsOther }
{
    match put_at(rt, path, put, seconds)? {
        Some(reply) => Ok(reply),
        None => Err(unchanged(rt, path)),
    }
}

// Why the file of a path isn't changed in place, where it isn't a page file of version 3, or isn't opened.
fn unchanged(rt: &HostRuntime, path: &str) -> StoreError
    ensures { IsOther result }
{
    match opened_at(rt, path) {
        Ok(file) => match see_old_version(&file) {
            Ok(()) => StoreError::OldVersion,
            Err(fault) => fault,
        },
        Err(fault) => fault,
    }
}
