//! Why a command line gives no job.
ghost use Rattle.std.specs.Prelude.{◌≡◌};
ghost use Rattle.exh_command.specs.CommandFault.{IsFaultOf};
ghost use Rattle.exh_command.specs.declared.fault.CliFault.TheVariants.{Memory};

use clap::error::ErrorKind;
use std::alloc::AllocError;
use thiserror::Error;

/// Why a command line gives no job.
#[derive(Debug, Drop, Error)]
pub enum CliFault {
    /// The words name no job, or call for help or the version. The text says how to write one, or
    /// tells the version.
    #[error("{0}")]
    Wrong(clap::Error),
    /// Memory ran out before the words were read.
    #[error("refused 10")]
    Memory,
}

impl From<clap::Error> for CliFault {
    ghost from_gives = { IsFaultOf };

    fn from(error: clap::Error) -> CliFault {
        if error.kind() == ErrorKind::OutOfMemory {
            CliFault::Memory
        } else {
            CliFault::Wrong(error)
        }
    }
}

impl From<AllocError> for CliFault {
    ghost from_gives = { λ _ fault. fault ≡ Memory };

    fn from(_error: AllocError) -> CliFault {
        CliFault::Memory
    }
}
