ghost use Rattle.std.specs.Prelude.{◌≡◌};
ghost use Rattle.exh_script.specs.declared.response_fault.ResponseFault.TheVariants.{Memory};

use std::alloc::AllocError;
use thiserror::Error;

/// Why a line of a script has no response.
#[derive(Clone, Copy, Debug, Error)]
pub enum ResponseFault {
    /// A growth was refused (refusal 10).
    #[error("out of memory")]
    Memory,
    /// A page couldn't be reached (refusal 11).
    #[error("a page is out of reach")]
    Page,
}

impl From<AllocError> for ResponseFault {
    ghost from_gives = { λ _ fault. fault ≡ Memory };

    fn from(_error: AllocError) -> ResponseFault {
        ResponseFault::Memory
    }
}
