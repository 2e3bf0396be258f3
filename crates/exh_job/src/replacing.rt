//! What standard error says of a page file with records that a save replaces.
ghost use Rattle.std.specs.Prelude.{◌≡◌, ◌⊎◌};
ghost use Rattle.exh_job.specs.declared.status.Status.TheVariants.{Done, Refused as Ended};

use crate::held_file::HeldFile;
use crate::job_path::JobPath;
use crate::saving::save_at_path;
use crate::{FileWards, Status};
use exh_command::Job;
use exh_load::open;
use exh_map::{FileMap, Settings, is_at, open_regular};
use exh_text::Escaped;
use std::fs;

// A page file that is replaced: its settings, and how many records it has.
#[derive(Clone, Copy)]
struct Replaced {
    settings: Settings,
    records: usize,
}

/// Saves what the run of a job leaves as the file of its path, as `save_at_path` does. Where a page file with records stood
/// there that wasn't opened, standard error says so: of a load, where no record is left of the text, or its settings are
/// others.
pub fn save_of_job(
    rt: &HostRuntime,
    job: &Job<'_>,
    save: JobPath<'_>,
    held: Option<&HeldFile<'_>>,
    wards: FileWards,
) -> Status
    ensures { (result ≡ Done) ⊎ (result ≡ Ended) }
{
    let path = save.path();
    let replaced = match job {
        Job::Load { .. } => replaced_by_load(rt, path, held, &wards),
        _ => replaced_at(rt, path, held),
    };
    let status = save_at_path(rt, save, held, wards);
    if matches!(status, Status::Done) {
        tell_replaced(rt, path, replaced);
    }
    status
}

// The page file that a load replaces, where it has records, and the load leaves none, or has other settings.
fn replaced_by_load(
    rt: &HostRuntime,
    path: &str,
    held: Option<&HeldFile<'_>>,
    wards: &FileWards,
) -> Option<Replaced> {
    let replaced = replaced_at(rt, path, held)?;
    if has_no_records(wards) || !replaced.settings.are_same(&wards.settings()) {
        Some(replaced)
    } else {
        None
    }
}

// Whether nothing was put into new wards.
fn has_no_records(wards: &FileWards) -> bool {
    wards.wards().iter().all(|ward| ward.journal().len() == 0)
}

// The page file of a path that wasn't opened, where it has records.
fn replaced_at(rt: &HostRuntime, path: &str, held: Option<&HeldFile<'_>>) -> Option<Replaced> {
    if let Some(held) = held {
        let whole = fs::canonicalize(rt, path).ok()?;
        if is_at(rt, held.seen.opened(), whole.as_str()).ok()? {
            return None;
        }
    }
    let file = open_regular(rt, path).ok()?;
    let mut map = FileMap::new(open(rt.alloc(), &mut &file).ok()?);
    let records = map.pairs(rt.alloc()).ok()?.len();
    if records == 0 {
        return None;
    }
    Some(Replaced {
        settings: map.settings(),
        records,
    })
}

// Says which page file was replaced, where one was.
fn tell_replaced(rt: &impl Eprint, path: &str, replaced: Option<Replaced>) {
    let Some(Replaced { settings, records }) = replaced else {
        return;
    };
    let path = Escaped(path);
    let (cap, wards, keyer) = (settings.cap, settings.ward_bits, settings.keyer.word());
    let _ = eprintln!(rt;
        "exhash: {path}: a page file was replaced: cap={cap} wards={wards} keyer={keyer} records={records}"
    );
}
