//! The opening of the page file of a path, and what is said of it.
ghost use Rattle.std.specs.Prelude.{◌≡◌, IfErr, IfOk, IsOkAnd};
ghost use Rattle.std.specs.Option.{option_copied};
ghost use Rattle.exh_job.specs.Opening.{IsNamed, IsOpenedAt};
ghost use Rattle.exh_job.specs.declared.status.Status.TheVariants.{Refused};

use crate::held_file::HeldFile;
use crate::saving::refuse_for_memory;
use crate::sentence::{tell_fault, tell_unopened};
use crate::standard::refuse_unread;
use crate::watch::reading_meter;
use crate::{FileWards, Status, Unopened, open_file};
use exh_map::{
    InPlaceFault, OpenedFile, Reason, Refused as NotRead, StoreError, SystemDisk, TRIES, WAIT,
    hold_still, is_replaced, open_above, with_reason,
};
use exh_stream::{ClearingWriter, MeteredReader, Output};
use exh_text::ReasonReader;
use std::cell::Cell;
use std::fs::File;
use std::io;

/// The wards of a page file, and the file, which is held open.
type Opening<'w> = (FileWards, HeldFile<'w>);

/// The wards of the page file of a path, where one is named, and the file, which is held open. A terminal is told how far
/// the reading is. Where it isn't opened that is told, and the answer is the status with which the program ends.
pub fn opened_at<'w>(
    rt: &HostRuntime,
    path: Option<&'w str>,
) -> Result<(Option<FileWards>, Option<HeldFile<'w>>), Status>
    ensures ok { IfOk result (λ opened. IsOpenedAt (option_copied path.entry) opened.0 opened.1) }
    ensures err { IfErr result (λ status. status ≡ Refused) }
{
    match path {
        Some(path) => {
            let (wards, held) = open_at(rt, path)?;
            Ok((Some(wards), Some(held)))
        }
        None => Ok((None, None)),
    }
}

/// The same of a path that is named.
pub fn open_at<'w>(rt: &HostRuntime, path: &'w str) -> Result<Opening<'w>, Status>
    ensures ok { IfOk result (λ opening. IsNamed path.now opening.1.seen) }
    ensures err { IfErr result (λ status. status ≡ Refused) }
{
    let reason = Cell::new(None);
    let seen = seen_at(rt, path, &reason)?;
    read_opened(rt, path, seen, &reason)
}

// Opens the file of a path, another one where that replaces it before its lock is free, and asks what it is; or why it isn't
// opened, which becomes the reason.
fn seen_at(rt: &HostRuntime, path: &str, reason: &Reason) -> Result<io::Result<OpenedFile>, Status>
    ensures ok { IfOk result (λ opened. IfOk opened (IsNamed path.now)) }
    ensures err { IfErr result (λ status. status ≡ Refused) }
{
    for _ in 0..TRIES {
        let file = match with_reason(open_above(rt, path), reason) {
            Ok(file) => file,
            Err(error) => return Ok(Err(error)),
        };
        match is_replaced(rt, path, &file, WAIT) {
            Ok(true) => {}
            Ok(false) => return seen_as(rt, path, file),
            Err(refused) => return Err(refuse_unread(rt, path, refused)),
        }
    }
    Err(refuse_unread(rt, path, NotRead::Unfit(InPlaceFault::Changed)))
}

// Asks what an open file is.
fn seen_as(rt: &HostRuntime, path: &str, file: File) -> Result<io::Result<OpenedFile>, Status>
    ensures ok { IfOk result (λ opened. IfOk opened (IsNamed path.now)) }
    ensures err { IfErr result (λ status. status ≡ Refused) }
{
    match SystemDisk::new(rt).seen(path, file) {
        Ok(seen) => Ok(Ok(seen)),
        Err(_) => Err(refuse_for_memory(rt)),
    }
}

// Reads an opened file.
fn read_opened<'w>(
    rt: &HostRuntime,
    path: &'w str,
    seen: io::Result<OpenedFile>,
    reason: &Reason,
) -> Result<Opening<'w>, Status>
    ensures ok { IfOk result (λ opening. IsOkAnd seen (λ was. opening.1.seen ≡ was)) }
    ensures err { IfErr result (λ status. status ≡ Refused) }
{
    let opened = match &seen {
        Ok(seen) => Ok(seen.opened()),
        Err(error) => Err(*error),
    };
    let is_held = is_held_still(rt, path, opened)?;
    let meter = reading_meter(rt, opened.ok());
    let counted = opened.map(|file| MeteredReader::new(ReasonReader::new(file, reason), &meter));
    let mut writer = ClearingWriter::new(io::writer(rt), &meter);
    let found = open_file(rt.alloc(), counted, &mut Output::new(&mut writer));
    meter.clear();
    if is_held {
        unlock(opened);
    }
    match (found, seen) {
        (Ok((wards, form)), Ok(seen)) => Ok((wards, HeldFile { path, seen, form })),
        (Err(unopened), _) => Err(refuse_opening(rt, path, unopened, reason)),
        (Ok(_), Err(_)) => Err(Status::Refused),
    }
}

// Says why a file isn't opened, and gives the status with which the program ends.
fn refuse_opening(rt: &HostRuntime, path: &str, unopened: Unopened, reason: &Reason) -> Status
    ensures { result ≡ Refused }
{
    match unopened {
        Unopened::Unread => tell_unopened(rt, path, reason),
        Unopened::Refused(fault) => {
            tell_fault(rt, path, StoreError::of_opening(fault, reason.get()));
        }
    }
    Status::Refused
}

// Whether an opened file is kept from writers while it is read, as one that is changed in place is.
fn is_held_still(rt: &HostRuntime, path: &str, opened: io::Result<&File>) -> Result<bool, Status>
    ensures err { IfErr result (λ status. status ≡ Refused) }
{
    let Ok(file) = opened else {
        return Ok(false);
    };
    match hold_still(rt, path, file, WAIT) {
        Ok(is_held) => Ok(is_held),
        Err(refused) => Err(refuse_unread(rt, path, refused)),
    }
}

// Lets writers at a file again. Where that fails they wait until it is dropped.
fn unlock(opened: io::Result<&File>) {
    if let Ok(file) = opened {
        let _ = file.unlock();
    }
}
