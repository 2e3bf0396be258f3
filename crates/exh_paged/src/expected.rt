ghost use Rattle.std.specs.Prelude.{◌≡◌, ℕ, List, IfErr, OnOk};
ghost use Rattle.sqlite_wal.specs.Recovery.{Image};
ghost use Rattle.exh_paged.specs.FilesFault.{IsCauseIn, IsEarly, IsSaved};
ghost use Rattle.exh_paged.specs.declared.files_fault.FilesFault.TheVariants.{NotAsOpened, OthersLog};
ghost use Rattle.exh_paged.specs.OwnLog.{HasHeader, IsExpected, IsLaterThan, MustHaveFor};

use crate::FilesFault;
use exh_cells::StampedHeader;

/// The state in which a page file has to be, as its log has it, where it is opened.
#[derive(Clone, Copy)]
pub enum Expected {
    /// Any state of the file: the one that it has without its log, the one that came of it, or the last of several that the
    /// log has, of which each came of the one before it. Where the file's own header is damaged, any.
    Own,
    /// The state that has this stamp.
    Stamp(u64),
}

impl Expected {
    /// Sees that a header is that of the state. Where a state of the file is expected, it has to have this stamp, or to have
    /// it as the stamp before.
    ///
    /// `OthersLog`: it is none of the file's states. `NotAsOpened`: it has another stamp.
    pub(crate) fn see(self, header: &StampedHeader, own: Option<u64>) -> Result<(), FilesFault>
        ensures expected { OnOk result ((image : Image) (bytes : List ℕ) → MustHaveFor self image own → HasHeader bytes header.now → IsExpected self image bytes) }
        ensures refused { IfErr result (λ fault. (image : Image) (bytes : List ℕ) → MustHaveFor self image own → HasHeader bytes header.now → IsCauseIn self image bytes fault) }
        ensures early { IfErr result IsEarly }
        ensures unsaved { IfErr result (λ fault. IsSaved fault → ⊥) }
    {
        match self {
            Expected::Own => see_own(header, own),
            Expected::Stamp(stamp) => see_stamp(header, stamp),
        }
    }
}

// Sees that a header has this stamp, or has it as the stamp before.
fn see_own(header: &StampedHeader, own: Option<u64>) -> Result<(), FilesFault>
    ensures own { OnOk result (IsLaterThan own header.now) }
    ensures others { IfErr result (λ fault. (fault ≡ OthersLog) × (IsLaterThan own header.now → ⊥)) }
{
    match own {
        Some(stamp) if header.stamp != stamp && header.before != stamp => Err(
            FilesFault::OthersLog,
        ),
        _ => Ok(()),
    }
}

// Sees that a header has this stamp.
fn see_stamp(header: &StampedHeader, stamp: u64) -> Result<(), FilesFault>
    ensures stamp { OnOk result (header.now.stamp ≡ stamp) }
    ensures other { IfErr result (λ fault. (fault ≡ NotAsOpened) × (header.now.stamp ≡ stamp → ⊥)) }
{
    if header.stamp == stamp {
        Ok(())
    } else {
        Err(FilesFault::NotAsOpened)
    }
}
