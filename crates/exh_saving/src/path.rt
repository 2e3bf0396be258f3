ghost use Rattle.std.specs.Prelude.{◌≡◌, IfErr, IfOk, IfSome, MatchOption, OnOk};
ghost use Rattle.exh_saving.specs.Answer.{IsTold, Leads, Named, Unnamed};
ghost use Rattle.exh_saving.specs.Seen.{MayReplace};
ghost use Rattle.exh_saving.specs.declared.fault.Call.TheVariants.{Ask};
ghost use Rattle.exh_saving.specs.Refused.{IsFileRefused, IsNameRefused, IsOldRefused, IsPathRefused, IsUnfound};
ghost use Rattle.exh_saving.specs.Replaced.{IsFree, IsReplaceable, IsReplaceableFile};
ghost use Rattle.exh_saving.specs.Saved.{Reaches};

use crate::{Call, Disk, DiskFault, Found, Kind, Target, file_name_of};
use std::alloc::Global;
use std::io::ErrorKind;

/// What a path to be saved to leads to.
#[derive(Drop)]
pub(crate) enum PathTo {
    /// Nothing, or a regular file: its path without links.
    File(String),
    /// A device, a pipe or a socket.
    Device,
}

/// What a path to be saved to leads to.
pub(crate) fn path_to<D: Disk>(alloc: Global, disk: &mut D, path: &str) -> Result<PathTo, DiskFault>
    ensures reaches { IfOk result (Reaches D.leads D.answers path.now) }
    ensures err { IfErr result (IsPathRefused D.answers path.now) }
    ensures crash { D.history disk.new ≡ D.history disk.old }
{
    if file_name_of(path).is_empty() {
        return Err(DiskFault::NoFileName);
    }
    match disk.ask(path) {
        Ok(found) => path_to_found(alloc, disk, path, found),
        Err(error) if error.kind() == ErrorKind::NotFound => new_path(alloc, disk, path),
        Err(error) => Err(DiskFault::at(Call::Ask, error)),
    }
}

fn path_to_found<D: Disk>(
    alloc: Global,
    disk: &mut D,
    path: &str,
    found: Found,
) -> Result<PathTo, DiskFault>
    requires { D.answers (Leads path.now found) }
    ensures reaches { IfOk result (Reaches D.leads D.answers path.now) }
    ensures err { IfErr result (IsPathRefused D.answers path.now) }
    ensures crash { D.history disk.new ≡ D.history disk.old }
{
    match found.kind {
        Kind::Regular => match disk.whole_path(alloc, path) {
            Ok(path) => Ok(PathTo::File(path)),
            Err(error) => Err(DiskFault::at(Call::Ask, error)),
        },
        Kind::Folder => Err(DiskFault::Folder),
        Kind::Link | Kind::Other => Ok(PathTo::Device),
    }
}

// Of a path that leads to nothing. A link that leads nowhere would be replaced; what else has the name came meanwhile.
fn new_path<D: Disk>(alloc: Global, disk: &mut D, path: &str) -> Result<PathTo, DiskFault>
    requires { IsUnfound D.answers }
    ensures reaches { IfOk result (Reaches D.leads D.answers path.now) }
    ensures err { IfErr result (IsPathRefused D.answers path.now) }
    ensures crash { D.history disk.new ≡ D.history disk.old }
{
    match disk.ask_name(path) {
        Ok(found) if found.kind == Kind::Link => Err(DiskFault::DanglingLink),
        Ok(_) => Err(DiskFault::Changed),
        Err(_) => match String::from_str(alloc, path) {
            Ok(path) => Ok(PathTo::File(path)),
            Err(_) => Err(DiskFault::Memory),
        },
    }
}

/// The file at a path, which a save may replace; `None` where nothing is there.
pub(crate) fn old_at<D: Disk>(
    disk: &mut D,
    path: &str,
    target: &Target<'_, D::Opened>,
) -> Result<Option<Found>, DiskFault>
    ensures there { IfOk result (IsReplaceable D.answers target.now.magic path.now) }
    ensures ok { IfOk result (λ there. IfSome target.now.seen (λ seen. MayReplace D.finds seen.now target.now.path.now path.now there)) }
    ensures free { OnOk result (IsFree D.answers D.finds target.now.magic target.now.path.now target.now.seen path.now) }
    ensures err { IfErr result (IsOldRefused D.answers D.finds target.now.magic target.now.path.now target.now.seen path.now) }
    ensures crash { D.history disk.new ≡ D.history disk.old }
{
    let there = replaceable_at(disk, path, target.magic)?;
    if let Some(seen) = target.seen {
        seen.check(disk, target.path, path, there.as_ref())?;
    }
    Ok(there)
}

// What has the name of a path, an empty file or one that begins so; `None` where nothing has it.
fn replaceable_at<D: Disk>(
    disk: &mut D,
    path: &str,
    magic: [u8; 8],
) -> Result<Option<Found>, DiskFault>
    ensures there { IfOk result (IsReplaceable D.answers magic path.now) }
    ensures err { IfErr result (IsNameRefused D.answers magic path.now) }
    ensures crash { D.history disk.new ≡ D.history disk.old }
{
    let Some(there) = there_at(disk, path)? else {
        return Ok(None);
    };
    see_replaceable(disk, path, &there, magic)?;
    Ok(Some(there))
}

/// What has the name of a path; `None` where nothing has it.
pub(crate) fn there_at<D: Disk>(disk: &mut D, path: &str) -> Result<Option<Found>, DiskFault>
    ensures there { IfOk result (λ there. MatchOption there (D.answers (Unnamed path.now)) (λ found. D.answers (Named path.now found))) }
    ensures err { IfErr result (IsTold D.answers Ask) }
    ensures crash { D.history disk.new ≡ D.history disk.old }
{
    match disk.ask_name(path) {
        Ok(there) => Ok(Some(there)),
        Err(error) if error.kind() == ErrorKind::NotFound => Ok(None),
        Err(error) => Err(DiskFault::at(Call::Ask, error)),
    }
}

// Sees that a file is empty or begins as a page file. What is no regular file by now isn't opened.
fn see_replaceable<D: Disk>(
    disk: &mut D,
    path: &str,
    there: &Found,
    magic: [u8; 8],
) -> Result<(), DiskFault>
    ensures ok { OnOk result (IsReplaceableFile D.answers magic path.now there.now) }
    ensures err { IfErr result (IsFileRefused D.answers magic path.now there.now) }
    ensures crash { D.history disk.new ≡ D.history disk.old }
{
    if there.kind != Kind::Regular {
        return Err(DiskFault::Changed);
    }
    let head = match disk.head(path) {
        Ok(head) => head,
        Err(error) => return Err(DiskFault::at(Call::Open, error)),
    };
    if !there.is_unchanged(&head.found) {
        return Err(DiskFault::Changed);
    }
    if there.size > 0 && head.bytes != magic {
        return Err(DiskFault::NoPageFile);
    }
    Ok(())
}
