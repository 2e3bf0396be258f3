ghost use Rattle.std.specs.Prelude.{◌≡◌};
ghost use Rattle.exh_format.specs.LegalFileFault.{fault_of_reading, fault_place, fault_reason, legal_file_fault_number};
ghost use Rattle.exh_format.specs.declared.legal_file_fault.LegalFileFault.TheVariants.{Memory};

use crate::{FileFault, ReadFileFault};
use exh_legal::Reason;
use std::alloc::AllocError;
use thiserror::Error;

/// Why no legal page file was read.
#[derive(Clone, Copy, Debug, Error)]
pub enum LegalFileFault {
    /// The bytes aren't a page file: number 30 to 39.
    #[error("{0}")]
    File(FileFault),
    /// They are one that isn't legal, for this reason first: number 40.
    #[error("the page file isn't legal: {0}")]
    Illegal(Reason),
    /// The reader failed: number 41.
    #[error("the reader failed")]
    Read,
    /// A growth was refused: number 10.
    #[error("out of memory")]
    Memory,
}

impl LegalFileFault {
    /// The refusal's number among all refusals.
    pub fn number(self) -> u8
        ensures { result ≡ legal_file_fault_number self }
    {
        match self {
            LegalFileFault::File(fault) => fault.number(),
            LegalFileFault::Illegal(_) => 40,
            LegalFileFault::Read => 41,
            LegalFileFault::Memory => 10,
        }
    }

    /// The place of the block at fault, the header's being 0, where the number is 30 to 35.
    pub fn place(self) -> Option<u32>
        ensures { result ≡ fault_place self }
    {
        match self {
            LegalFileFault::File(FileFault::Block { place, .. }) => Some(place),
            _ => None,
        }
    }

    /// The reason's number, 1 to 6, where the number is 40.
    pub fn reason(self) -> Option<u8>
        ensures { result ≡ fault_reason self }
    {
        match self {
            LegalFileFault::Illegal(reason) => Some(reason.number()),
            _ => None,
        }
    }
}

impl From<ReadFileFault> for LegalFileFault {
    ghost from_gives = { λ read fault. fault ≡ fault_of_reading read };

    fn from(fault: ReadFileFault) -> LegalFileFault {
        match fault {
            ReadFileFault::File(fault) => LegalFileFault::File(fault),
            ReadFileFault::Read => LegalFileFault::Read,
            ReadFileFault::Memory => LegalFileFault::Memory,
        }
    }
}

impl From<AllocError> for LegalFileFault {
    ghost from_gives = { λ _ fault. fault ≡ Memory };

    fn from(_error: AllocError) -> LegalFileFault {
        LegalFileFault::Memory
    }
}
