//! A save.
ghost use Rattle.std.specs.Prelude.{◌≡◌, ◌⊎◌, ℕ, IfErr, IfNone, IfOk, IfSome, IsSome, List, None, OnErr, OnOk};
ghost use Rattle.std.specs.Io.KnownBytes.{Appends};
ghost use Rattle.exh_saving.specs.declared.stage.Stage.TheVariants.{Settled};
ghost use Rattle.exh_saving.specs.Replaced.{LeadsToDevice};
ghost use Rattle.exh_saving.specs.Saved.{IsSaved, IsWrittenTo, SavesAt};
ghost use Rattle.exh_saving.specs.Unsaved.{IsDeviceUnwritten, IsSaveRefused, IsUnsaved, MayPlace};

use crate::beside::save_beside;
use crate::path::{PathTo, path_to};
use crate::writing::write_source;
use crate::{Call, Disk, DiskFault, Source, Target, Watch};
use std::alloc::Global;
use std::io;
use std::io::ErrorKind;

/// What a save came to.
#[derive(Drop)]
pub struct Saved<F: Drop> {
    /// The file, which is locked as long as this is there; `None` where no regular file was written.
    pub file: Option<F>,
    /// Why the folder couldn't be synchronized, where it couldn't: then a fault of the machine may bring the old file back.
    pub folder: Option<io::Error>,
}

/// Saves a source at a path. A regular file is written beside its path, in a file of its own that this save has the lock
/// of, synchronized, and renamed over what is there, whose lock it has and whose permissions the new file gets; where
/// nothing is there it is linked to its path. Then its folder is synchronized.
/// What is no regular file is written as it stands, and synchronized where it can be. A watch is told of what is written.
/// The source comes back, as it was or as writing leaves it, so that after a fault it can be saved elsewhere.
///
/// On an `Err` a regular file is as before, and nothing is left beside it.
pub fn save<D: Disk, S: Source, V: Watch>(
    alloc: Global,
    disk: &mut D,
    target: &Target<'_, D::Opened>,
    source: S,
    watch: &V,
) -> (Result<Saved<D::File>, DiskFault>, S)
    ensures bytes { IfOk result.0 (λ saved. IfSome saved.file (λ file. Appends D.unwritten (D.holds file) (S.bytes source))) }
    ensures settled { IfOk result.0 (λ saved. IfSome saved.file (λ file. D.stage file ≡ Settled)) }
    ensures device { IfOk result.0 (λ saved. IfNone saved.file (LeadsToDevice D.answers target.now.path.now × IsWrittenTo D.Device.contents (S.bytes source))) }
    ensures err { IfErr result.0 (IsSaveRefused D.leads D.answers D.finds (S.fails source result.1) target.now.magic target.now.path.now target.now.seen) }
    ensures wrote { OnOk result.0 (S.leaves source result.1) }
    ensures source { (result.1 ≡ source) ⊎ S.leaves source result.1 }
    // At each moment of the call a crash leaves at the path, without links, what it could leave there before, or the new file.
    // A file comes there only where nothing is, or what may be replaced.
    ensures crash { (whole : List ℕ) × ((whole ≡ target.now.path.now) ⊎ D.leads target.now.path.now whole)
        × SavesAt (D.history disk.old whole) (D.history disk.new whole) D.holds (IsSaved D.unwritten (S.bytes source)) result.0
        × IfOk result.0 (λ saved. IfSome saved.file (λ _. MayPlace D.answers D.finds target.now.magic target.now.path.now target.now.seen whole)) }
{
    match path_to(alloc, disk, target.path) {
        Ok(PathTo::File(path)) => save_file(alloc, disk, &path, target, source, watch),
        Ok(PathTo::Device) => save_to_device(disk, target.path, source, watch),
        Err(fault) => (Err(fault), source),
    }
}

// Saves at a path without links that nothing has, or a regular file.
fn save_file<D: Disk, S: Source, V: Watch>(
    alloc: Global,
    disk: &mut D,
    path: &str,
    target: &Target<'_, D::Opened>,
    source: S,
    watch: &V,
) -> (Result<Saved<D::File>, DiskFault>, S)
    ensures bytes { IfOk result.0 (λ saved. IfSome saved.file (λ file. Appends D.unwritten (D.holds file) (S.bytes source))) }
    ensures settled { IfOk result.0 (λ saved. IfSome saved.file (λ file. D.stage file ≡ Settled)) }
    ensures written { IfOk result.0 (λ saved. IsSome saved.file) }
    ensures free { OnOk result.0 (MayPlace D.answers D.finds target.now.magic target.now.path.now target.now.seen path.now) }
    ensures err { IfErr result.0 (IsUnsaved D.leads D.answers D.finds (S.fails source result.1) target.now.magic target.now.path.now target.now.seen path.now) }
    ensures wrote { OnOk result.0 (S.leaves source result.1) }
    ensures source { (result.1 ≡ source) ⊎ S.leaves source result.1 }
    ensures crash { SavesAt (D.history disk.old path.now) (D.history disk.new path.now) D.holds (IsSaved D.unwritten (S.bytes source)) result.0 }
{
    let (saved, source) = save_beside(alloc, disk, path, target, source, watch);
    match saved {
        Ok((file, folder)) => (
            Ok(Saved {
                file: Some(file),
                folder,
            }),
            source,
        ),
        Err(fault) => (Err(fault), source),
    }
}

// Writes what is no regular file. One that came there meanwhile isn't written to.
fn save_to_device<D: Disk, S: Source, V: Watch>(
    disk: &mut D,
    path: &str,
    source: S,
    watch: &V,
) -> (Result<Saved<D::File>, DiskFault>, S)
    ensures file { IfOk result.0 (λ saved. saved.file ≡ None) }
    ensures bytes { OnOk result.0 (IsWrittenTo D.Device.contents (S.bytes source)) }
    ensures err { IfErr result.0 (IsDeviceUnwritten D.answers (S.fails source result.1) path.now) }
    ensures wrote { OnOk result.0 (S.leaves source result.1) }
    ensures source { (result.1 ≡ source) ⊎ S.leaves source result.1 }
    ensures crash { D.history disk.new ≡ D.history disk.old }
{
    let device = match disk.open(path) {
        Ok(Some(device)) => device,
        Ok(None) => return (Err(DiskFault::Changed), source),
        Err(error) => return (Err(DiskFault::at(Call::Open, error)), source),
    };
    let (written, source, mut device) = write_source(device, source, watch);
    if let Err(fault) = written {
        return (Err(fault), source);
    }
    match disk.synchronize_device(&mut device) {
        // So says the system of what can't be synchronized.
        Err(error) if error.kind() != ErrorKind::InvalidInput => {
            (Err(DiskFault::at(Call::Synchronize, error)), source)
        }
        _ => (
            Ok(Saved {
                file: None,
                folder: None,
            }),
            source,
        ),
    }
}
