ghost use Rattle.std.specs.Prelude.{◌≡◌, ◌⊎◌, ℕ, IfErr, IfNone, IfOk, IfSome, List, OnOk};
ghost use Rattle.exh_saving.specs.declared.stage.Stage.TheVariants.{Settled};
ghost use Rattle.std.specs.Io.KnownBytes.{Appends};
ghost use Rattle.exh_system.specs.declared.path.TheConstants.{MAGIC};
ghost use Rattle.exh_saving.specs.Refused.{IsRefused};
ghost use Rattle.exh_saving.specs.Replaced.{LeadsToDevice, MaySave};
ghost use Rattle.exh_saving.specs.Saved.{IsSaved, IsWrittenTo, SavesAt};
ghost use Rattle.exh_saving.specs.Unsaved.{IsSaveRefused, MayPlace};
ghost use Rattle.exh_file.specs.Draft.{IsDraftLeft, bytes_in};
ghost use Rattle.exh_system.specs.WardsFault.{IsWardsFault};

use crate::wards::{Metered, Wards};
use exh_file::Draft;
use exh_saving::{Disk, DiskFault, Saved, Seen, Target, look, save};
use exh_stores::Pages;
use exh_stream::{Meter, Terminal};
use std::alloc::Global;

// The bytes that a page file begins with: only such a file is replaced, or an empty one.
const MAGIC: [u8; 8] = exh_file::MAGIC;

/// Whether wards can be saved at a path of a disk, as far as asking tells; `seen` is the file that was opened, where one
/// was.
///
/// On an `Err` a save there would fail so, if nothing changes until then.
pub fn look_at<D: Disk>(
    alloc: Global,
    disk: &mut D,
    path: &str,
    seen: Option<&Seen<D::Opened>>,
) -> Result<(), DiskFault>
    ensures free { OnOk result (MaySave D.leads D.answers D.finds MAGIC path.now seen.entry) }
    ensures err { IfErr result (IsRefused D.leads D.answers D.finds MAGIC path.now seen.entry) }
    ensures crash { D.history disk.new ≡ D.history disk.old }
{
    look(alloc, disk, &target_at(path, seen))
}

/// Saves a draft's wards as the page file of a path of a disk, in the draft's form, as `exh_saving` saves, and gives them
/// back as they were, so that after a fault they can be saved elsewhere. The meter counts what is written, and `seen` is
/// the file that was opened, where one was.
///
/// On an `Err` a regular file that was there is as before, and nothing is left beside it.
pub fn save_at<D: Disk, P: Pages + Drop, T: Terminal>(
    alloc: Global,
    disk: &mut D,
    path: &str,
    seen: Option<&Seen<D::Opened>>,
    draft: Draft<P>,
    meter: &Meter<T>,
) -> (Result<Saved<D::File>, DiskFault>, Draft<P>)
    ensures bytes { IfOk result.0 (λ saved. IfSome saved.file (λ file.
        Appends D.unwritten (D.holds file) (bytes_in draft))) }
    ensures settled { IfOk result.0 (λ saved. IfSome saved.file (λ file. D.stage file ≡ Settled)) }
    ensures device { IfOk result.0 (λ saved. IfNone saved.file (LeadsToDevice D.answers path.now × IsWrittenTo D.Device.contents (bytes_in draft))) }
    ensures err { IfErr result.0 (IsSaveRefused D.leads D.answers D.finds (IsWardsFault draft result.1) MAGIC path.now seen.entry) }
    ensures wards { IsDraftLeft draft result.1 }
    // At each moment of the call a crash leaves at the path, without links, what it could leave there before, or these wards.
    // A file comes there only where nothing is, or what may be replaced.
    ensures crash { (whole : List ℕ) × ((whole ≡ path.now) ⊎ D.leads path.now whole)
        × SavesAt (D.history disk.old whole) (D.history disk.new whole) D.holds
        (IsSaved D.unwritten (bytes_in draft)) result.0
        × IfOk result.0 (λ saved. IfSome saved.file (λ _. MayPlace D.answers D.finds MAGIC path.now seen.entry whole)) }
{
    let wards = Wards { draft };
    let (saved, wards) = save(
        alloc,
        disk,
        &target_at(path, seen),
        wards,
        &Metered { meter },
    );
    (saved, wards.draft)
}

fn target_at<'t, O: Drop>(path: &'t str, seen: Option<&'t Seen<O>>) -> Target<'t, O>
    ensures path { result.path.now ≡ path.now }
    ensures magic { result.magic ≡ MAGIC }
    ensures seen { result.seen ≡ seen.entry }
{
    Target {
        path,
        magic: MAGIC,
        seen,
    }
}
