ghost use Rattle.std.specs.Prelude.{◌≡◌};
ghost use Rattle.exh_ward.specs.WardFault.{IsStoreFault};
ghost use Rattle.exh_load.specs.LoadFault.{load_fault_of};
ghost use Rattle.exh_load.specs.declared.load_fault.LoadFault.TheVariants.{Memory, Write};

use exh_stream::WriteFault;
use exh_ward::WardFault;
use std::alloc::AllocError;
use thiserror::Error;

/// Why pairs were put no further, a beginning of their text being out.
#[derive(Clone, Copy, Debug, Error)]
pub enum LoadFault {
    /// The writer failed (refusal 42).
    #[error("the writer failed")]
    Write,
    /// A growth was refused (refusal 10).
    #[error("out of memory")]
    Memory,
    /// A page couldn't be reached (refusal 11).
    #[error("a page is out of reach")]
    Page,
}

impl LoadFault {
    // What a refused put comes to.
    pub(crate) fn of_ward(fault: WardFault) -> LoadFault
        requires { IsStoreFault fault }
        ensures { result ≡ load_fault_of fault }
    {
        if fault == WardFault::Page {
            LoadFault::Page
        } else {
            LoadFault::Memory
        }
    }
}

impl From<WriteFault> for LoadFault {
    ghost from_gives = { λ _ fault. fault ≡ Write };

    fn from(_fault: WriteFault) -> LoadFault {
        LoadFault::Write
    }
}

impl From<AllocError> for LoadFault {
    ghost from_gives = { λ _ fault. fault ≡ Memory };

    fn from(_error: AllocError) -> LoadFault {
        LoadFault::Memory
    }
}
