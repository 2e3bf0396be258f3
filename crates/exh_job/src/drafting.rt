//! The form in which wards are saved.
ghost use Rattle.std.specs.Prelude.{◌≡◌, IfErr, IfOk};
ghost use Rattle.std.specs.Option.{option_copied};
ghost use Rattle.exh_job.specs.HeldForm.{IsDraftFrom};
ghost use Rattle.exh_job.specs.declared.status.Status.TheVariants.{Refused};

use crate::saving::refuse_for_memory;
use crate::{FileWards, Status};
use exh_command::PageFileVersion;
use exh_frames::FileStore;
use exh_load::{Draft, DraftFault, PlacedForm, Stamps};
use exh_map::draw_stamp;
use std::alloc::Global;
use std::io;

/// Wards in the form in which they are saved: in the version that is written; or in these places, with a new stamp. Where
/// they can't be, standard error says why, and the answer is the status with which the program ends.
pub(crate) fn drafted(
    rt: &HostRuntime,
    path: &str,
    form: Option<&PlacedForm>,
    wards: FileWards,
) -> Result<Draft<FileStore>, Status>
    ensures err { IfErr result (λ status. status ≡ Refused) }
{
    if form.is_none() {
        return Ok(Draft::plain(wards));
    }
    match draw_stamp(rt) {
        Ok(own) => told(rt, path, draft_from(rt.alloc(), form, own, wards)),
        Err(error) => {
            let _ = eprintln!(rt; "exhash: not saved to {path:?}: drawing a stamp failed: {error}");
            Err(Status::Refused)
        }
    }
}

/// The draft of wards in these places, with this stamp; or in the version that is written, where there are no places.
pub(crate) fn draft_from(
    alloc: Global,
    form: Option<&PlacedForm>,
    own: u64,
    wards: FileWards,
) -> Result<Draft<FileStore>, DraftFault>
    ensures { IfOk result (IsDraftFrom (option_copied form.entry) own wards) }
{
    match form {
        None => Ok(Draft::plain(wards)),
        Some(form) => {
            let stamps = Stamps {
                own,
                before: form.stamp,
            };
            Draft::grown(alloc, wards, &form.lows, stamps)
        }
    }
}

/// Says why there is no draft, and gives the status with which the program ends.
pub(crate) fn told(
    rt: &HostRuntime,
    path: &str,
    draft: Result<Draft<FileStore>, DraftFault>,
) -> Result<Draft<FileStore>, Status>
    ensures err { IfErr result (λ status. status ≡ Refused) }
{
    match draft {
        Ok(draft) => Ok(draft),
        Err(DraftFault::Memory) => Err(refuse_for_memory(rt)),
        Err(fault) => {
            let _ = eprintln!(rt; "exhash: not saved to {path:?}: {fault}");
            Err(Status::Refused)
        }
    }
}

/// Wards as a new file of a version, of version 3 with two new stamps. Where they can't be, standard error says why, and the
/// answer is the status with which the program ends.
pub(crate) fn drafted_anew(
    rt: &HostRuntime,
    path: &str,
    version: PageFileVersion,
    wards: FileWards,
) -> Result<Draft<FileStore>, Status>
    ensures err { IfErr result (λ status. status ≡ Refused) }
{
    match version {
        PageFileVersion::Second => Ok(Draft::plain(wards)),
        PageFileVersion::Third => match draw_stamps(rt) {
            Ok(stamps) => told(rt, path, Draft::anew(rt.alloc(), wards, stamps)),
            Err(error) => {
                let _ = eprintln!(rt;
                    "exhash: not saved to {path:?}: drawing a stamp failed: {error}"
                );
                Err(Status::Refused)
            }
        },
    }
}

// Two stamps.
fn draw_stamps(rt: &HostRuntime) -> io::Result<Stamps> {
    let own = draw_stamp(rt)?;
    let before = draw_stamp(rt)?;
    Ok(Stamps { own, before })
}
