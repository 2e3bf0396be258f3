//! How far reading and saving are, as a terminal is told.

use exh_stream::{BLOCK_LEN, Console, Meter, Unit, Work};
use std::env;
use std::fs::File;
use std::io::{IsTerminal, Stderr};

/// The terminal that is told how far work is: standard error, where it is one that knows how a line is taken away.
pub fn console(rt: &HostRuntime) -> Option<Console<'_, HostRuntime, Stderr>> {
    let console = Console::new(rt, rt.stderr())?;
    match env::var(rt, "TERM") {
        Ok(name) if name.as_str() == "dumb" => None,
        _ => Some(console),
    }
}

/// Of the reading of an opened file, which begins now: told where standard error is a terminal.
pub fn reading_meter<'r>(
    rt: &'r HostRuntime,
    opened: Option<&File>,
) -> Meter<Console<'r, HostRuntime, Stderr>> {
    let work = Work {
        unit: Unit::BlocksRead,
        of: blocks_of(opened),
    };
    Meter::new(console(rt), work)
}

/// Of the saving of a page file, which begins now: told where standard error is a terminal.
pub fn saving_meter(rt: &HostRuntime) -> Meter<Console<'_, HostRuntime, Stderr>> {
    let work = Work {
        unit: Unit::BlocksWritten,
        of: None,
    };
    Meter::new(console(rt), work)
}

// How many blocks a regular file has, a last one that is cut off among them.
fn blocks_of(opened: Option<&File>) -> Option<u64> {
    let about = opened?.metadata().ok()?;
    if about.is_file() {
        Some(about.len().div_ceil(BLOCK_LEN))
    } else {
        None
    }
}
