//! Page files of a path that others may replace while their lock is waited for.
ghost use Rattle.std.specs.Prelude.{IfErr};
ghost use Rattle.exh_map.specs.Sizes.{IsOfOpening};

use crate::source::opened_at;
use crate::{InPlaceFault, Refused, StoreError, front_of, is_at, share_soon};
use std::fs;
use std::fs::File;

/// How often a path is opened anew to which another file came before it was locked.
pub const TRIES: u32 = 100;

/// Takes the lock that keeps writers from the open file of a path, where that is changed in place, and waits for it so many
/// seconds. The answer is whether another file has the path by then, as behind a `compact`: that one is to be opened.
///
/// `Busy`: a writer had the lock all the while. `System`: the system has no locks, or doesn't say what is there.
pub fn is_replaced(
    rt: &HostRuntime,
    path: &str,
    file: &File,
    seconds: u64,
) -> Result<bool, Refused> {
    if front_of(file)?.is_none() {
        return Ok(false);
    }
    share_soon(rt, file, seconds)?;
    let whole = fs::canonicalize(rt, path)?;
    Ok(!is_at(rt, file, whole.as_str())?)
}

/// Opens the file of a path, and takes that lock; where another file came to the path meanwhile, that one. With it comes
/// whether it has the lock, or needs none: a writer may have had it for all these seconds.
///
/// `Absent`: nothing is there, or an empty file. `Changed`: other files come to the path. Others: it isn't opened, as they say.
pub(crate) fn opened_there(
    rt: &HostRuntime,
    path: &str,
    seconds: u64,
) -> Result<(File, bool), StoreError>
    ensures { IfErr result IsOfOpening }
{
    for _ in 0..TRIES {
        let file = opened_at(rt, path)?;
        match is_replaced(rt, path, &file, seconds) {
            Ok(false) => return Ok((file, true)),
            Ok(true) => {}
            Err(Refused::Unfit(InPlaceFault::Busy)) => return Ok((file, false)),
            Err(refused) => return Err(StoreError::from(refused)),
        }
    }
    Err(StoreError::Changed)
}
