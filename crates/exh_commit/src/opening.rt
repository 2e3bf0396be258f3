ghost use Rattle.std.specs.Prelude.{◌≡◌, ℕ, List, IsTrue, IfOk, IfErr};
ghost use Rattle.sqlite_wal.specs.Files.{seen_image};
ghost use Rattle.sqlite_wal.specs.Reads.{AreClean};
ghost use Rattle.exh_commit.specs.FilePages.{Leaves, LeavesAsFound, StandsFor};
ghost use Rattle.exh_commit.specs.PagedFile.{IsHonest, IsReady, bytes_in, files_in};

use crate::{PagedFile, SeenFiles};
use exh_codec::BLOCK_LEN;
use sqlite_disk::{Disk, Files};
use sqlite_pager::{Error, Options, PageSize, Pager};
use std::alloc::Global;

/// Opens a file with its log, which was looked at, and finds the blocks that they stand for, whatever a crash left of them. It takes memory for
/// the pages that are kept, as many as the options say, and for what the log has.
///
/// An error, with the files: `OutOfMemory`, a growth was refused; `Io`, a call of the disk failed; `Corrupt`, the two stand
/// for no file of such blocks; `Full`, 32 bits don't number its blocks.
pub fn open<D: Disk + Drop>(
    alloc: Global,
    files: SeenFiles<D>,
    options: Options,
) -> Result<PagedFile<D>, (Error, Files<D>)>
    requires log { IsTrue (D.Disk.is_usable files.log) }
    requires db { IsTrue (D.Disk.is_usable files.db) }
    ensures ready { IfOk result IsReady }
    ensures found { IfOk result (λ it. IsHonest it → StandsFor (seen_image D.Disk files.log files.db) (bytes_in it)) }
    ensures one { IfOk result (λ it. IsHonest it → (old : List ℕ) → StandsFor (seen_image D.Disk files.log files.db) old → bytes_in it ≡ old) }
    ensures settled { IfOk result (λ it. Leaves D.Disk (files_in it) (λ bytes. bytes ≡ bytes_in it)) }
    ensures clean { IfOk result (λ it. IsHonest it → AreClean D.Disk files.log files.db) }
    ensures kept { IfOk result (λ it. LeavesAsFound D.Disk (files.log, files.db) (files_in it)) }
    ensures given_back { IfErr result (λ failed. LeavesAsFound D.Disk (files.log, files.db) (failed.1.log, failed.1.db)) }
{
    let Some(size) = PageSize::new(BLOCK_LEN) else {
        unreachable!();
    };
    let SeenFiles { log, db } = files;
    let mut pager = match Pager::new(alloc, Files { log, db }, size, options) {
        Ok(pager) => pager,
        Err(failed) => return Err((Error::OutOfMemory, failed.value)),
    };
    if let Err(error) = pager.recover() {
        return Err((error, pager.close()));
    }
    Ok(PagedFile { pager })
}
