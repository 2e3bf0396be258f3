//! Why words give no request, before it is said of which command.
ghost use Rattle.std.specs.Prelude.{◌≡◌};
ghost use Rattle.exh_request.specs.declared.cause_or_memory.CauseOrMemory.TheVariants.{Memory, Wrong};

use crate::WrongCause;
use std::alloc::{AllocError, AllocFailed};

/// What is wrong with the words of a command, or want of memory.
#[derive(Clone, Copy)]
pub enum CauseOrMemory {
    Wrong(WrongCause),
    Memory,
}

impl From<WrongCause> for CauseOrMemory {
    ghost from_gives = { λ cause fault. fault ≡ Wrong cause };

    fn from(cause: WrongCause) -> CauseOrMemory {
        CauseOrMemory::Wrong(cause)
    }
}

impl From<AllocError> for CauseOrMemory {
    ghost from_gives = { λ _ fault. fault ≡ Memory };

    fn from(_error: AllocError) -> CauseOrMemory {
        CauseOrMemory::Memory
    }
}

impl<T: Drop> From<AllocFailed<T>> for CauseOrMemory {
    ghost from_gives = { λ _ fault. fault ≡ Memory };

    fn from(_error: AllocFailed<T>) -> CauseOrMemory {
        CauseOrMemory::Memory
    }
}
