ghost use Rattle.std.specs.Prelude.{◌≡◌};
ghost use Rattle.exh_file.specs.DraftFault.{draft_fault_of};
ghost use Rattle.exh_file.specs.declared.draft_fault.DraftFault.TheVariants.{Memory};

use crate::SaveFault;
use std::alloc::AllocError;
use thiserror::Error;

/// Why wards can't be written in a form.
#[derive(Clone, Copy, Debug, Error)]
pub enum DraftFault {
    /// The wards haven't the pages that had places in a file.
    #[error("its pages aren't those of the file that was opened")]
    Places,
    /// A page couldn't be reached, which its ward's store has counted.
    #[error("a page is out of reach")]
    Page,
    /// A growth was refused.
    #[error("out of memory")]
    Memory,
}

impl From<SaveFault> for DraftFault {
    ghost from_gives = { λ saving fault. fault ≡ draft_fault_of saving };

    fn from(fault: SaveFault) -> DraftFault {
        match fault {
            SaveFault::Memory => DraftFault::Memory,
            SaveFault::Page | SaveFault::Write => DraftFault::Page,
        }
    }
}

impl From<AllocError> for DraftFault {
    ghost from_gives = { λ _ fault. fault ≡ Memory };

    fn from(_error: AllocError) -> DraftFault {
        DraftFault::Memory
    }
}
