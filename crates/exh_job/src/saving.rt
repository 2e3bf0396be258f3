//! Where the wards that a run leaves are saved, and what standard error says of that.
ghost use Rattle.std.specs.Prelude.{◌≡◌, ◌⊎◌};
ghost use Rattle.exh_job.specs.declared.status.Status.TheVariants.{Done, Refused as Ended};

use crate::drafting::{drafted, drafted_anew};
use crate::form_saved::form_saved;
use crate::held_file::HeldFile;
use crate::job_path::JobPath;
use crate::replaced_file::lock_replaced;
use crate::watch::saving_meter;
use crate::{FileWards, Status, print_out_of_memory};
use exh_command::PageFileVersion;
use exh_frames::FileStore;
use exh_load::{Draft, PlacedForm};
use exh_map::{
    DiskFault, InPlaceFault, OpenedFile, Refused, SystemDisk, WAIT, above_limit, file_size_limit,
    is_name_beside, look_at, save_at, save_in_place,
};
use exh_stream::Output;
use std::{fs, io};

/// Says on standard error why a path can't be saved to, where that can be told before the run.
pub fn warn(rt: &HostRuntime, path: Option<&str>, held: Option<&HeldFile<'_>>) {
    let Some(path) = path else {
        return;
    };
    match look_at(rt.alloc(), &mut SystemDisk::new(rt), path, seen_in(held)) {
        Ok(()) | Err(DiskFault::Memory) => {}
        Err(fault) => {
            let _ = eprintln!(rt; "exhash: can't save to {path:?}: {fault}");
        }
    }
}

/// Saves wards as the file of a job's path, and on a terminal tells how far that is: in the places of the file that was
/// opened by the same path, where that is of version 3, else in the version that is written. Standard error says in a line
/// why it isn't saved; where memory ran out, that is the last line, `refused 10`, on standard output.
pub fn save_at_path(
    rt: &HostRuntime,
    save: JobPath<'_>,
    held: Option<&HeldFile<'_>>,
    wards: FileWards,
) -> Status
    ensures { (result ≡ Done) ⊎ (result ≡ Ended) }
{
    let path = save.path();
    let form = form_saved(path, held);
    if let Some(above) = above_limit(file_size_limit(rt, path), &wards.header(), form.is_some()) {
        let _ = eprintln!(rt; "exhash: not saved to {path:?}: {above}");
        return Status::Refused;
    }
    match (drafted(rt, path, form, wards), form, held) {
        (Ok(draft), Some(form), Some(held)) => save_over(rt, path, held, form, draft),
        (Ok(draft), _, _) => save_draft(rt, path, held, draft),
        (Err(status), _, _) => status,
    }
}

// Saves a draft over the file of version 3 that was opened, of which just the blocks that differ are written.
fn save_over(
    rt: &HostRuntime,
    path: &str,
    held: &HeldFile<'_>,
    form: &PlacedForm,
    draft: Draft<FileStore>,
) -> Status
    ensures { (result ≡ Done) ⊎ (result ≡ Ended) }
{
    match save_in_place(rt, path, held.seen.opened(), form.stamp, draft, WAIT) {
        Ok(()) => Status::Done,
        Err(refused) => refuse_in_place(rt, path, refused),
    }
}

/// Says why a file isn't changed in place, and gives the status with which the program ends.
pub(crate) fn refuse_in_place(rt: &HostRuntime, path: &str, refused: Refused) -> Status
    ensures { result ≡ Ended }
{
    match refused {
        Refused::Unfit(InPlaceFault::Memory) => refuse_for_memory(rt),
        refused if refused.may_be_saved() => {
            let _ = eprintln!(rt; "exhash: {path:?}: {refused}");
            Status::Refused
        }
        refused => {
            let _ = eprintln!(rt; "exhash: not saved to {path:?}: {refused}");
            Status::Refused
        }
    }
}

/// Saves wards as a new file of a version at a job's path, and on a terminal tells how far that is. Standard error says why
/// it isn't saved, as where something is there that isn't empty; where memory ran out, that is the last line, `refused 10`,
/// on standard output.
pub fn save_new(
    rt: &HostRuntime,
    save: JobPath<'_>,
    wards: FileWards,
    version: PageFileVersion,
) -> Status
    ensures { (result ≡ Done) ⊎ (result ≡ Ended) }
{
    let path = save.path();
    if is_taken(rt, path) {
        let _ = eprintln!(rt; "exhash: not saved to {path:?}: what is there isn't empty");
        return Status::Refused;
    }
    let is_placed = matches!(version, PageFileVersion::Third);
    if let Some(above) = above_limit(file_size_limit(rt, path), &wards.header(), is_placed) {
        let _ = eprintln!(rt; "exhash: not saved to {path:?}: {above}");
        return Status::Refused;
    }
    match drafted_anew(rt, path, version, wards) {
        Ok(draft) => save_draft(rt, path, None, draft),
        Err(status) => status,
    }
}

// Whether a regular file is at a path that isn't empty.
fn is_taken(rt: &HostRuntime, path: &str) -> bool {
    match fs::metadata(rt, path) {
        Ok(about) => about.is_file() && about.len() > 0,
        Err(_) => false,
    }
}

// The file that is held open.
fn seen_in<'h>(held: Option<&'h HeldFile<'_>>) -> Option<&'h OpenedFile> {
    match held {
        Some(held) => Some(&held.seen),
        None => None,
    }
}

// Sees that a path isn't where the log of a page file stands, and locks what is to be replaced there.
fn lock_place(
    rt: &HostRuntime,
    path: &str,
    held: Option<&HeldFile<'_>>,
) -> Result<Option<OpenedFile>, Refused> {
    if is_name_beside(rt, path)? {
        return Err(Refused::Unfit(InPlaceFault::NameBeside));
    }
    lock_replaced(rt, path, held)
}

/// Saves a draft as the file of a path, and on a terminal tells how far that is.
pub(crate) fn save_draft(
    rt: &HostRuntime,
    path: &str,
    held: Option<&HeldFile<'_>>,
    draft: Draft<FileStore>,
) -> Status
    ensures { (result ≡ Done) ⊎ (result ≡ Ended) }
{
    let locked = match lock_place(rt, path, held) {
        Ok(locked) => locked,
        Err(refused) => return refuse_in_place(rt, path, refused),
    };
    let seen = match &locked {
        Some(locked) => Some(locked),
        None => seen_in(held),
    };
    let meter = saving_meter(rt);
    let mut disk = SystemDisk::new(rt);
    let (saved, _draft) = save_at(rt.alloc(), &mut disk, path, seen, draft, &meter);
    meter.clear();
    match saved {
        Ok(saved) => {
            if let Some(error) = saved.folder {
                let _ = eprintln!(rt; "exhash: saved to {path:?}, but not its folder: {error}");
            }
            Status::Done
        }
        Err(fault) => refuse_save(rt, path, fault),
    }
}

/// Says why a path isn't saved to, and gives the status with which the program ends.
pub(crate) fn refuse_save(rt: &HostRuntime, path: &str, fault: DiskFault) -> Status
    ensures { result ≡ Ended }
{
    match fault {
        DiskFault::Memory => refuse_for_memory(rt),
        fault => {
            let _ = eprintln!(rt; "exhash: not saved to {path:?}: {fault}");
            Status::Refused
        }
    }
}

/// Says that memory ran out, and gives the status with which the program ends.
pub(crate) fn refuse_for_memory(rt: &HostRuntime) -> Status
    ensures { result ≡ Ended }
{
    let _ = print_out_of_memory(&mut Output::new(&mut io::writer(rt)));
    Status::Refused
}
