ghost use Rattle.std.specs.Prelude.{◌≡◌};
ghost use Rattle.exh_script.specs.Served.{fault_of};
ghost use Rattle.exh_script.specs.declared.serve_fault.ServeFault.TheVariants.{Write, Memory};

use crate::ResponseFault;
use exh_stream::WriteFault;
use std::alloc::AllocError;
use thiserror::Error;

/// Why a run of a script stopped, a beginning of its text being out.
#[derive(Clone, Copy, Debug, Error)]
pub enum ServeFault {
    /// The writer failed (refusal 42).
    #[error("the writer failed")]
    Write,
    /// A growth was refused (refusal 10).
    #[error("out of memory")]
    Memory,
    /// A page couldn't be reached (refusal 11).
    #[error("a page is out of reach")]
    Page,
}

impl From<WriteFault> for ServeFault {
    ghost from_gives = { λ _ fault. fault ≡ Write };

    fn from(_fault: WriteFault) -> ServeFault {
        ServeFault::Write
    }
}

impl From<AllocError> for ServeFault {
    ghost from_gives = { λ _ fault. fault ≡ Memory };

    fn from(_error: AllocError) -> ServeFault {
        ServeFault::Memory
    }
}

impl From<ResponseFault> for ServeFault {
    ghost from_gives = { λ fault served. served ≡ fault_of fault };

    fn from(fault: ResponseFault) -> ServeFault {
        match fault {
            ResponseFault::Memory => ServeFault::Memory,
            ResponseFault::Page => ServeFault::Page,
        }
    }
}
