//! Logs that stand where a new page file is to be.

use crate::{InPlaceFault, PageLog, Refused};
use std::{fs, io};

/// Sees that no log stands beside a path at which no page file is that may have one: whoever opens a new one there would take
/// the log for its own.
///
/// `OthersLog`: one stands there. `System`: the system doesn't say what is there.
pub fn see_no_log(rt: &HostRuntime, path: &str) -> Result<(), Refused> {
    if log_at(rt, path)?.has_change(rt)? {
        return Err(Refused::Unfit(InPlaceFault::OthersLog));
    }
    Ok(())
}

// The log that a page file of a path would have.
fn log_at(rt: &HostRuntime, path: &str) -> io::Result<PageLog> {
    match fs::canonicalize(rt, path) {
        Ok(whole) => PageLog::of(rt, whole.as_str()),
        Err(_) => PageLog::of(rt, path),
    }
}
