//! Changes of page files of the system that were cut off.
ghost use Rattle.std.specs.Prelude.{IsTrue, IfOk, IfSome};
ghost use Rattle.sqlite_std_file.specs.File.{file_is_usable};
ghost use Rattle.exh_in_place.specs.SystemFiles.{IsOnDisk};

use crate::Refused;
use crate::system_files::{close, opened_locked, options};
use exh_paged::{Expected, SeenFiles, recover_files, recover_for_reader};
use exh_system::{PageLog, is_at, see_fit};
use sqlite_disk::Disk;
use sqlite_std_file::{FileFrom, Start, Wary};
use std::fs;
use std::fs::File;
use std::path::PathBuf;

// What a run that was cut off left at a path without links.
#[derive(Drop)]
struct Left<D: Disk> {
    whole: PathBuf,
    files: SeenFiles<D>,
}

/// Copies into the open file of a path, which is locked, what a run that was cut off left in its log. Nothing is done where
/// there is no log that may have a change, or the path leads elsewhere by now.
///
/// `Unrecovered`: it can't be copied, and stands in the log still. Others: as of `change_at`.
pub fn recover_at(rt: &HostRuntime, path: &str, file: &File) -> Result<(), Refused> {
    let Some(Left { whole, files }) = left_at(rt, path, file, Wary)? else {
        return Ok(());
    };
    let (recovered, files) = recover_files(rt.alloc(), files, options(rt)?, Expected::Own);
    close(rt, file, whole.as_str(), recovered.is_ok(), files);
    Ok(recovered?)
}

/// Does the same for a reader; whether it did. Where the file's header is damaged, and none into which the log was being copied,
/// nothing is done: the log may be another file's.
///
/// Errors: as of `recover_at`.
pub(crate) fn recover_to_read(rt: &HostRuntime, path: &str, file: &File) -> Result<bool, Refused> {
    let Some(Left { whole, files }) = left_at(rt, path, file, Wary)? else {
        return Ok(true);
    };
    let (recovered, files) = recover_for_reader(rt.alloc(), files, options(rt)?);
    close(
        rt,
        file,
        whole.as_str(),
        matches!(&recovered, Ok(true)),
        files,
    );
    Ok(recovered?)
}

// What was left of the open file of a path, which is locked, and its log; `None` where there is no log that may have a change, or
// the path leads elsewhere by now.
fn left_at<S: Start>(
    rt: &HostRuntime,
    path: &str,
    file: &File,
    start: S,
) -> Result<Option<Left<FileFrom<S>>>, Refused>
    ensures log { IfOk result (λ left. IfSome left (λ left. IsTrue (file_is_usable S.Start left.files.log))) }
    ensures db { IfOk result (λ left. IfSome left (λ left. IsTrue (file_is_usable S.Start left.files.db))) }
    ensures on_disk { IfOk result (λ left. IfSome left (λ left. IsOnDisk S.Start left.files.log × IsOnDisk S.Start left.files.db)) }
{
    let whole = fs::canonicalize(rt, path)?;
    let log = PageLog::of(rt, whole.as_str())?;
    if !is_at(rt, file, whole.as_str())? || !log.has_change(rt)? {
        return Ok(None);
    }
    see_fit(rt, file, whole.as_str())?;
    let files = opened_locked(rt, file, whole.as_str(), start)?;
    Ok(Some(Left { whole, files }))
}
