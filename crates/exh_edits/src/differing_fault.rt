ghost use Rattle.std.specs.Prelude.{◌≡◌};
ghost use Rattle.exh_edits.specs.declared.differing_fault.DifferingFault.TheVariants.{Memory, Read};

use std::alloc::AllocFailed;
use std::io;
use std::io::ErrorKind;
use thiserror::Error;

/// Why there are no edits that make a file what was written.
#[derive(Debug, Drop, Error)]
pub enum DifferingFault {
    /// What was written isn't whole blocks, or has fewer than the file.
    #[error("the new content is shorter than the file, or no whole blocks")]
    Shorter,
    /// It has more blocks than there are places.
    #[error("the new content is too long for a file")]
    Long,
    /// A block of the file couldn't be read.
    #[error("a block of the file couldn't be read: {0}")]
    Read(io::Error),
    /// A growth was refused.
    #[error("out of memory")]
    Memory,
}

impl DifferingFault {
    // What a writer answers that failed by this.
    pub(crate) fn error(&self) -> io::Error {
        io::Error::from(match self {
            DifferingFault::Shorter => ErrorKind::UnexpectedEof,
            DifferingFault::Long => ErrorKind::FileTooLarge,
            DifferingFault::Read(error) => error.kind(),
            DifferingFault::Memory => ErrorKind::OutOfMemory,
        })
    }
}

impl From<io::Error> for DifferingFault {
    ghost from_gives = { λ error fault. fault ≡ Read error };

    fn from(error: io::Error) -> DifferingFault {
        DifferingFault::Read(error)
    }
}

impl<T: Drop> From<AllocFailed<T>> for DifferingFault {
    ghost from_gives = { λ _ fault. fault ≡ Memory };

    fn from(_error: AllocFailed<T>) -> DifferingFault {
        DifferingFault::Memory
    }
}
