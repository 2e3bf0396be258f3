//! The runs over the program's standard streams, and over files of the system.
ghost use Rattle.std.specs.Prelude.{◌≡◌, IfSome};
ghost use Rattle.exh_job.specs.JobPath.{SavesAt};
ghost use Rattle.exh_job.specs.Opening.{IsNamed};
ghost use Rattle.exh_job.specs.declared.status.Status.TheVariants.{Refused as Ended};

use crate::sentence::{tell_fault, tell_refused, tell_refused_bytes, tell_unopened};
use crate::{
    Ending, HeldFile, JobPath, OUT_OF_MEMORY, Status, Topic, UNOPENED, open_at, print_last,
    reading_meter, tell_file, with_reason,
};
use exh_command::PageFileVersion;
use exh_map::{
    InPlaceFault, Reason, Refused, Standing, StoreError, TRIES, WAIT, is_replaced, open_above,
    stand_still,
};
use exh_stream::{ClearingWriter, MeteredReader, Output};
use exh_text::ReasonReader;
use std::cell::Cell;
use std::fs::File;
use std::io;

/// Tells of the file of a path, and on a terminal how far that is. Where it is refused standard error says why, in a sentence.
pub fn tell_path(rt: &HostRuntime, topic: Topic, path: &str) -> Status {
    for _ in 0..TRIES {
        if let Some(status) = tell_there(rt, topic, path) {
            return status;
        }
    }
    refuse_unread(rt, path, Refused::Unfit(InPlaceFault::Changed))
}

// Tells of the file that a path leads to; `None` where another one came there before its lock was free.
fn tell_there(rt: &HostRuntime, topic: Topic, path: &str) -> Option<Status> {
    let reason = Cell::new(None);
    match with_reason(open_above(rt, path), &reason) {
        Ok(file) => match is_replaced(rt, path, &file, WAIT) {
            Ok(true) => None,
            Ok(false) => Some(tell_opened(rt, topic, path, file, &reason)),
            Err(refused) => Some(refuse_unread(rt, path, refused)),
        },
        Err(error) => {
            let status = tell_counted(rt, topic, Err(error), &reason);
            tell_unopened(rt, path, &reason);
            Some(status)
        }
    }
}

// Tells of an open file of a path.
fn tell_opened(rt: &HostRuntime, topic: Topic, path: &str, file: File, reason: &Reason) -> Status {
    match stand_still(rt, path, &file, WAIT) {
        Ok(Standing::InMemory(found)) => return tell_bytes(rt, topic, path, found.bytes()),
        Ok(Standing::Whole | Standing::Replaced) => {}
        Err(refused) => return refuse_unread(rt, path, refused),
    }
    let status = tell_counted(rt, topic, Ok(&file), reason);
    if matches!(status, Status::Refused) {
        tell_refused(rt, path, &file, reason);
    }
    status
}

// Tells of the bytes of a page file in memory.
fn tell_bytes(rt: &HostRuntime, topic: Topic, path: &str, bytes: &[u8]) -> Status {
    let mut writer = io::writer(rt);
    let status = tell_file(rt.alloc(), topic, Ok(bytes), &mut Output::new(&mut writer));
    if matches!(status, Status::Refused) {
        tell_refused_bytes(rt, path, bytes);
    }
    status
}

// Tells of a file, if it is opened, and on a terminal how far that is.
fn tell_counted(
    rt: &HostRuntime,
    topic: Topic,
    opened: io::Result<&File>,
    reason: &Reason,
) -> Status {
    let meter = reading_meter(rt, opened.ok());
    let counted = opened.map(|file| MeteredReader::new(ReasonReader::new(file, reason), &meter));
    let mut writer = ClearingWriter::new(io::writer(rt), &meter);
    let status = tell_file(rt.alloc(), topic, counted, &mut Output::new(&mut writer));
    meter.clear();
    status
}

/// Says why a file isn't read, and gives the status with which the program ends.
pub(crate) fn refuse_unread(rt: &HostRuntime, path: &str, refused: Refused) -> Status
    ensures { result ≡ Ended }
{
    let line = match refused {
        Refused::Unfit(InPlaceFault::Memory) => OUT_OF_MEMORY,
        _ => UNOPENED,
    };
    print_last(&mut Output::new(&mut io::writer(rt)), line);
    tell_fault(rt, path, StoreError::from(refused));
    Status::Refused
}

/// Opens the page file of a path, whose wards are to be saved as a new file of a version at the job's path.
pub fn convert<'w>(
    rt: &HostRuntime,
    path: &'w str,
    version: PageFileVersion,
    save: Option<JobPath<'w>>,
) -> (Ending<'w>, Option<HeldFile<'w>>)
    ensures saves { SavesAt save.entry result.0 }
    ensures named { IfSome result.1 (λ held. IsNamed path.now held.seen) }
{
    match open_at(rt, path) {
        Ok((wards, held)) => match save {
            Some(path) => (
                Ending::SaveNew {
                    path,
                    wards,
                    version,
                },
                Some(held),
            ),
            None => (Ending::Over(Status::Refused), Some(held)),
        },
        Err(status) => (Ending::Over(status), None),
    }
}
