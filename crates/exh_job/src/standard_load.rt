//! The run of a load over the program's standard streams, and over the file of a path.
ghost use Rattle.std.specs.Prelude.{IfSome};
ghost use Rattle.exh_job.specs.JobPath.{SavesAt};
ghost use Rattle.exh_job.specs.Opening.{IsNamed};

use crate::file_watch::{pair_notes, pairs_meter};
use crate::load_run::{load_ending, load_long_pairs, load_pairs};
use crate::numbered_writer::NumberedWriter;
use crate::{Ending, FileWards, HeldFile, INPUT, JobPath, opened_at, tell_reason, warn};
use exh_command::LoadWay;
use exh_stream::{ClearingWriter, MeteredReader};
use exh_text::{Expect, Notes, ReasonReader, SCRIPT_LIMIT};
use std::cell::Cell;
use std::io;

/// Loads the pairs on standard input, of which a file comes that is to be saved at a job's path: a new one, or the one
/// that is there, which is held open. A terminal is told how many were read.
pub fn load<'w>(
    rt: &HostRuntime,
    path: &'w str,
    way: LoadWay,
    save: Option<JobPath<'w>>,
) -> (Ending<'w>, Option<HeldFile<'w>>)
    ensures saves { SavesAt save.entry result.0 }
    ensures named { IfSome result.1 (λ held. IsNamed path.now held.seen) }
{
    let from = match way {
        LoadWay::Short | LoadWay::Long => None,
        LoadWay::Into => Some(path),
    };
    match opened_at(rt, from) {
        Ok((wards, held)) => {
            warn(rt, save.map(|it| it.path()), held.as_ref());
            (load_so(rt, way, wards, save), held)
        }
        Err(status) => (Ending::Over(status), None),
    }
}

// Loads the pairs in this way, over the wards that were opened for it.
fn load_so<'w>(
    rt: &HostRuntime,
    way: LoadWay,
    from: Option<FileWards>,
    save: Option<JobPath<'w>>,
) -> Ending<'w>
    ensures { SavesAt save.entry result }
{
    match way {
        LoadWay::Short => load_short(rt, save),
        LoadWay::Long | LoadWay::Into => load_lines(rt, from, save),
    }
}

// Loads a text of the length of a script, which is read whole, as a new file.
fn load_short<'w>(rt: &HostRuntime, save: Option<JobPath<'w>>) -> Ending<'w>
    ensures { SavesAt save.entry result }
{
    let reason = Cell::new(None);
    let meter = pairs_meter(rt);
    let mut reader = MeteredReader::new(ReasonReader::new(rt.reader(), &reason), &meter);
    let mut writer = ClearingWriter::new(io::writer(rt), &meter);
    let mut notes = pair_notes(rt, &meter);
    let loaded = load_pairs(
        rt.alloc(),
        None,
        SCRIPT_LIMIT,
        &mut reader,
        &mut writer,
        &mut notes,
    );
    notes.end();
    meter.clear();
    tell_reason(rt, INPUT, &reason);
    load_ending(loaded, save)
}

// Loads a text of any length, line by line.
fn load_lines<'w>(
    rt: &HostRuntime,
    from: Option<FileWards>,
    save: Option<JobPath<'w>>,
) -> Ending<'w>
    ensures { SavesAt save.entry result }
{
    let reason = Cell::new(None);
    let number = Cell::new(0);
    let meter = pairs_meter(rt);
    let mut reader = MeteredReader::new(ReasonReader::new(rt.reader(), &reason), &meter);
    let mut writer = ClearingWriter::new(io::writer(rt), &meter);
    let error = ClearingWriter::new(rt.stderr(), &meter);
    let mut notes = Notes::new(NumberedWriter::new(error, &number), Expect::Key);
    let loaded = load_long_pairs(
        rt.alloc(),
        from,
        &mut reader,
        &mut writer,
        &mut notes,
        &number,
    );
    notes.end();
    meter.clear();
    tell_reason(rt, INPUT, &reason);
    load_ending(loaded, save)
}
