ghost use Rattle.std.specs.Prelude.{◌≡◌};
ghost use Rattle.exh_ward.specs.WardFault.{IsStoreFault};
ghost use Rattle.exh_file.specs.SaveFault.{save_fault_of, save_fault_number};
ghost use Rattle.exh_file.specs.declared.save_fault.SaveFault.TheVariants.{Memory, Write};

use exh_stream::WriteFault;
use exh_ward::WardFault;
use std::alloc::AllocError;
use thiserror::Error;

/// Why wards weren't written whole.
#[derive(Clone, Copy, Debug, Error)]
pub enum SaveFault {
    /// The writer failed, or took no bytes: number 42.
    #[error("the writer failed")]
    Write,
    /// A page couldn't be reached, which its ward's store has counted: number 11.
    #[error("a page is out of reach")]
    Page,
    /// A growth was refused: number 10.
    #[error("out of memory")]
    Memory,
}

impl SaveFault {
    /// The refusal's number among all refusals.
    pub fn number(self) -> u8
        ensures { result ≡ save_fault_number self }
    {
        match self {
            SaveFault::Write => 42,
            SaveFault::Page => 11,
            SaveFault::Memory => 10,
        }
    }

    /// What a ward's refusal to give a page becomes: `Page` of a page out of reach, else `Memory`.
    pub fn of_ward(fault: WardFault) -> SaveFault
        requires { IsStoreFault fault }
        ensures { result ≡ save_fault_of fault }
    {
        if fault == WardFault::Page {
            SaveFault::Page
        } else {
            SaveFault::Memory
        }
    }
}

impl From<WriteFault> for SaveFault {
    ghost from_gives = { λ _ fault. fault ≡ Write };

    fn from(_fault: WriteFault) -> SaveFault {
        SaveFault::Write
    }
}

impl From<AllocError> for SaveFault {
    ghost from_gives = { λ _ fault. fault ≡ Memory };

    fn from(_error: AllocError) -> SaveFault {
        SaveFault::Memory
    }
}
