//! How far the reading of pairs is, as a terminal is told, and what is said of them beside that.

use crate::console;
use exh_stream::{ClearingWriter, Console, Meter, Unit, Work};
use exh_text::{Expect, Notes};
use std::io::{IsTerminal, Stderr};

/// Of the reading of pairs from standard input, which begins now: told where standard error is a terminal and standard
/// input is none, at which they would be typed.
pub fn pairs_meter(rt: &HostRuntime) -> Meter<Console<'_, HostRuntime, Stderr>> {
    let console = if rt.stdin().is_terminal() {
        None
    } else {
        console(rt)
    };
    let work = Work {
        unit: Unit::PairsRead,
        of: None,
    };
    Meter::new(console, work)
}

/// What is said of pairs, before which their meter's line is taken away.
pub fn pair_notes<'m, 'r>(
    rt: &'r HostRuntime,
    meter: &'m Meter<Console<'r, HostRuntime, Stderr>>,
) -> Notes<ClearingWriter<'m, Stderr, Console<'r, HostRuntime, Stderr>>> {
    Notes::new(ClearingWriter::new(rt.stderr(), meter), Expect::Key)
}
