ghost use Rattle.std.specs.Prelude.{◌≡◌};
ghost use Rattle.exh_format.specs.declared.legal_file_fault.LegalFileFault.TheVariants.{Memory};
ghost use Rattle.exh_ward.specs.WardFault.{IsStoreFault};
ghost use Rattle.exh_file.specs.OpenFault.{open_fault_number, open_fault_of, open_fault_place, open_fault_reason};
ghost use Rattle.exh_file.specs.declared.open_fault.OpenFault.TheVariants.{File};

use exh_format::LegalFileFault;
use exh_ward::WardFault;
use std::alloc::AllocError;
use thiserror::Error;

/// Why no page file was opened.
#[derive(Clone, Copy, Debug, Error)]
pub enum OpenFault {
    /// No legal page file was read: number 30 to 41, and 10 for want of memory.
    #[error("{0}")]
    File(LegalFileFault),
    /// A ward's store couldn't reach a page: number 11.
    #[error("a page is out of reach")]
    Page,
}

impl OpenFault {
    /// The refusal's number among all refusals.
    pub fn number(self) -> u8
        ensures { result ≡ open_fault_number self }
    {
        match self {
            OpenFault::File(fault) => fault.number(),
            OpenFault::Page => 11,
        }
    }

    /// The place of the block at fault, the header's being 0, where the number is 30 to 35.
    pub fn place(self) -> Option<u32>
        ensures { result ≡ open_fault_place self }
    {
        match self {
            OpenFault::File(fault) => fault.place(),
            OpenFault::Page => None,
        }
    }

    /// The reason's number, 1 to 6, where the number is 40.
    pub fn reason(self) -> Option<u8>
        ensures { result ≡ open_fault_reason self }
    {
        match self {
            OpenFault::File(fault) => fault.reason(),
            OpenFault::Page => None,
        }
    }

    /// What a ward's refusal to be made of pages becomes: `Page` of a page out of reach, else want of memory.
    pub fn of_ward(fault: WardFault) -> OpenFault
        requires { IsStoreFault fault }
        ensures { result ≡ open_fault_of fault }
    {
        if fault == WardFault::Page {
            OpenFault::Page
        } else {
            OpenFault::File(LegalFileFault::Memory)
        }
    }
}

impl From<LegalFileFault> for OpenFault {
    ghost from_gives = { λ read fault. fault ≡ File read };

    fn from(fault: LegalFileFault) -> OpenFault {
        OpenFault::File(fault)
    }
}

impl From<AllocError> for OpenFault {
    ghost from_gives = { λ _ fault. fault ≡ File Memory };

    fn from(_error: AllocError) -> OpenFault {
        OpenFault::File(LegalFileFault::Memory)
    }
}
