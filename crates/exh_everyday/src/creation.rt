//! The run of a create.
ghost use Rattle.std.specs.Prelude.{◌≡◌};
ghost use Rattle.exh_transfer.specs.Ends.{made_status};
ghost use Rattle.exh_everyday.specs.Runs.{CreateEnds};

use exh_saving::folder_of;
use exh_text::Escaped;
use exh_transfer::{
    Run, Settings, Status, StoreError, is_nothing_at, made_status, make, pause_after, tell_refused,
};
use std::fs;
use std::thread::sleep;
use std::time::{Duration, Instant};

// How many of the least pauses, of two milliseconds, fit into a second.
const PAUSES: u64 = 500;

/// Makes a page file of version 3 without pairs at a path at which nothing is, or an empty file.
pub(crate) fn create(run: &Run<'_>, settings: Settings) -> Status
    ensures { CreateEnds result }
{
    let was_free = is_nothing_at(run.rt, run.path);
    let made = make_soon(run, settings);
    end_create(run, was_free, &made)
}

// Ends a create by what the library answers; whether nothing was at the path before.
fn end_create(run: &Run<'_>, was_free: bool, made: &Result<(), StoreError>) -> Status
    ensures { result ≡ made_status made.now }
{
    if let Err(fault) = made {
        tell_refused(run.rt, run.path, fault);
        if was_free && is_empty_at(run.rt, run.path) {
            tell_left(run.rt, run.path);
        }
    }
    made_status(made)
}

// Whether an empty file is at a path.
fn is_empty_at(rt: &HostRuntime, path: &str) -> bool {
    match fs::symlink_metadata(rt, path) {
        Ok(about) => about.is_file() && about.len() == 0,
        Err(_) => false,
    }
}

// Says that an empty file is left at a path, which may be another process's by now, and so isn't removed.
fn tell_left(rt: &impl Eprint, path: &str) {
    let path = Escaped(path);
    let _ = eprintln!(rt;
        "exhash: {path}: an empty file is left there: remove it, or let `exhash create` take it"
    );
}

// Makes the file, and waits for another process that is at work there. Its folder is asked for before, so that nothing is left
// in one whose path isn't UTF-8.
fn make_soon(run: &Run<'_>, settings: Settings) -> Result<(), StoreError> {
    let _folder = fs::canonicalize(run.rt, folder_of(run.path))?;
    let start = Instant::now(run.rt)?;
    let wait = Duration::from_secs(run.seconds);
    for _ in 0..run.seconds.saturating_mul(PAUSES) {
        match make(run.rt, run.path, settings) {
            Err(StoreError::Busy) => {}
            made => return made,
        }
        let passed = start.elapsed(run.rt)?;
        if passed >= wait {
            break;
        }
        sleep(run.rt, pause_after(passed));
    }
    make(run.rt, run.path, settings)
}
