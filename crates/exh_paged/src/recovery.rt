//! Files that a crash left, of which the page file alone is to have all.
ghost use Rattle.std.specs.Prelude.{◌≡◌, ℕ, List, IsTrue, IfErr, OnOk};
ghost use Rattle.sqlite_disk.specs.Disk.{Only};
ghost use Rattle.sqlite_wal.specs.Files.{seen_image};
ghost use Rattle.sqlite_wal.specs.Reads.{AreClean};
ghost use Rattle.exh_commit.specs.FilePages.{Leaves, LeavesAlone, StandsFor};
ghost use Rattle.exh_paged.specs.FilesFault.{IsCauseIn, IsOthersLog};
ghost use Rattle.exh_paged.specs.OwnLog.{IsExpected, IsOwnPair};

use crate::opening::open_expected;
use crate::{Expected, FilesFault};
use exh_commit::SeenFiles;
use sqlite_disk::{Disk, Files};
use sqlite_pager::Options;
use std::alloc::Global;

/// Opens a page file with its log, whatever a crash left of them, sees that it is in the state that is expected, copies what is
/// committed into the file, and gives both back. It takes memory for the blocks that are kept, as many as the options say.
///
/// `OthersLog`: the log isn't this file's. `NotAsOpened`: the file has another stamp. `Header`: the header fails this test.
/// `Read`: it couldn't be read. `Uncopied`: what is committed couldn't be copied, and stands in the log. `Change`: the two
/// couldn't be opened.
pub fn recover_files<D: Disk + Drop>(
    alloc: Global,
    files: SeenFiles<D>,
    options: Options,
    expected: Expected,
) -> (Result<(), FilesFault>, Files<D>)
    requires log { IsTrue (D.Disk.is_usable files.log) }
    requires db { IsTrue (D.Disk.is_usable files.db) }

    // After a restart, what is read is what is on the disk.
    requires log_synced { Only (D.Disk.seen files.log) (D.Disk.may_leave files.log) }
    requires db_synced { Only (D.Disk.seen files.db) (D.Disk.may_leave files.db) }

    // A crash leaves the bytes that the two stood for, and at the end the file alone has them.
    ensures crash { (old : List ℕ) → StandsFor (seen_image D.Disk files.log files.db) old → Leaves D.Disk (result.1.log, result.1.db) (λ bytes. bytes ≡ old) }
    ensures ok { OnOk result.0 ((old : List ℕ) → StandsFor (seen_image D.Disk files.log files.db) old → LeavesAlone D.Disk (result.1.log, result.1.db) (λ bytes. bytes ≡ old)) }

    // They are in the state that was expected, and another one is told, unless a wrong answer of the disk was taken as true.
    ensures expected { OnOk result.0 (AreClean D.Disk result.1.log result.1.db → (old : List ℕ) → StandsFor (seen_image D.Disk files.log files.db) old → IsExpected expected (seen_image D.Disk files.log files.db) old) }
    ensures refused { IfErr result.0 (λ fault. AreClean D.Disk result.1.log result.1.db → (old : List ℕ) → StandsFor (seen_image D.Disk files.log files.db) old → IsCauseIn expected (seen_image D.Disk files.log files.db) old fault) }

    ensures clean { OnOk result.0 (AreClean D.Disk result.1.log result.1.db → AreClean D.Disk files.log files.db) }

    // A file and a log that belong together aren't told to be of two files, unless a wrong answer of the disk was taken as true.
    ensures own { IfErr result.0 (λ fault. AreClean D.Disk result.1.log result.1.db → IsOwnPair (seen_image D.Disk files.log files.db) → IsOthersLog fault → ⊥) }
{
    match open_expected(alloc, files, options, expected) {
        Ok(file) => (Ok(()), file.close()),
        Err((fault, files)) => (Err(fault), files),
    }
}
