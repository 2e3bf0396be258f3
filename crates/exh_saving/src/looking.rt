ghost use Rattle.std.specs.Prelude.{◌≡◌, IfErr, IsTrue, OnOk};
ghost use Rattle.exh_saving.specs.Answer.{Runs};
ghost use Rattle.exh_saving.specs.Found.{IsClosedTo};
ghost use Rattle.exh_saving.specs.declared.found.Runner.{Runner};
ghost use Rattle.exh_saving.specs.Refused.{IsFolderRefused, IsRefused};
ghost use Rattle.exh_saving.specs.Replaced.{IsOpenFolder, MaySave};

use crate::path::{PathTo, old_at, path_to};
use crate::{Call, Disk, DiskFault, Found, Kind, Target, folder_of};
use std::alloc::Global;

/// Whether a path can be saved to, as far as asking tells. Nothing is changed.
///
/// On an `Err` a save there would fail so, if nothing changes until then.
pub fn look<D: Disk>(
    alloc: Global,
    disk: &mut D,
    target: &Target<'_, D::Opened>,
) -> Result<(), DiskFault>
    ensures free { OnOk result (MaySave D.leads D.answers D.finds target.now.magic target.now.path.now target.now.seen) }
    ensures err { IfErr result (IsRefused D.leads D.answers D.finds target.now.magic target.now.path.now target.now.seen) }
    ensures crash { D.history disk.new ≡ D.history disk.old }
{
    match path_to(alloc, disk, target.path)? {
        PathTo::Device => Ok(()),
        PathTo::File(path) => {
            old_at(disk, &path, target)?;
            look_at_folder(disk, folder_of(&path))?;
            Ok(())
        }
    }
}

fn look_at_folder<D: Disk>(disk: &mut D, folder: &str) -> Result<(), DiskFault>
    ensures folder { OnOk result (IsOpenFolder D.answers folder.now) }
    ensures err { IfErr result (IsFolderRefused D.answers folder.now) }
    ensures crash { D.history disk.new ≡ D.history disk.old }
{
    let found = match disk.ask(folder) {
        Ok(found) => found,
        Err(error) => return Err(DiskFault::at(Call::Make, error)),
    };
    if found.kind != Kind::Folder || is_closed(disk, &found) {
        return Err(DiskFault::ClosedFolder);
    }
    Ok(())
}

// Whether a folder is surely closed to whom the program runs for.
fn is_closed<D: Disk>(disk: &mut D, folder: &Found) -> bool
    ensures closed { IsTrue result → (runner : Runner) × D.answers (Runs runner) × IsClosedTo folder.now runner }
    ensures crash { D.history disk.new ≡ D.history disk.old }
{
    match disk.runner() {
        Ok(runner) => folder.is_closed_to(runner),
        Err(_) => false,
    }
}
