ghost use Rattle.std.specs.Prelude.{◌≡◌};
ghost use Rattle.exh_stream.specs.declared.input_fault.InputFault.TheVariants.{Memory, Read};

use crate::ReadFault;
use std::alloc::AllocError;
use thiserror::Error;

/// Why an input was not read whole.
#[derive(Clone, Copy, Debug, PartialEq, Eq, Error)]
pub enum InputFault {
    #[error("the input is longer than its limit")]
    TooLong,
    #[error("the reader failed")]
    Read,
    #[error("out of memory")]
    Memory,
}

impl From<ReadFault> for InputFault {
    ghost from_gives = { λ _ fault. fault ≡ Read };

    fn from(_fault: ReadFault) -> InputFault {
        InputFault::Read
    }
}

impl From<AllocError> for InputFault {
    ghost from_gives = { λ _ fault. fault ≡ Memory };

    fn from(_error: AllocError) -> InputFault {
        InputFault::Memory
    }
}
