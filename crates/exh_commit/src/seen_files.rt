ghost use Rattle.std.specs.Prelude.{◌≡◌, IsTrue};
ghost use Rattle.exh_commit.specs.LogLook.{IsOwnLog};

use sqlite_disk::{Disk, Files};

/// A page file and its log, at whose name nothing stands but a log of page files, or what one begins with: `see_log` alone
/// makes one.
#[derive(Drop)]
pub struct SeenFiles<D: Disk> {
    pub(crate) log: D,
    pub(crate) db: D,
    ghost own: { ∥ (IsTrue (D.Disk.is_clean log) → IsOwnLog (D.Disk.seen log)) ∥₁ },
}

impl<D: Disk> SeenFiles<D> {
    ghost use Rattle.exh_commit.specs.SeenFiles.{both_of};

    /// The two, of which nothing is known any more.
    pub fn into_files(self) -> Files<D>
        ensures { (result.log, result.db) ≡ both_of self }
    {
        let SeenFiles { log, db } = self;
        Files { log, db }
    }
}
