ghost use Rattle.std.specs.Prelude.{◌≡◌};
ghost use Rattle.exh_direct.specs.DirectFault.{direct_fault_number, direct_fault_place, fault_at};
ghost use Rattle.exh_direct.specs.declared.direct_fault.DirectFault.TheVariants.{File, Memory};

use exh_codec::ImageFault;
use exh_format::FileFault;
use std::alloc::AllocError;
use thiserror::Error;

/// Why a key's value wasn't found out.
#[derive(Clone, Copy, Debug, Error)]
pub enum DirectFault {
    /// A block on the key's way isn't there whole, or isn't what belongs at its place: number 30 to 38.
    #[error("{0}")]
    File(FileFault),
    /// The pages on the key's way don't lead to its own, so the page file isn't legal: number 40.
    #[error("the page file isn't legal: its links don't lead to the key's page")]
    Astray,
    /// A block couldn't be read: number 41.
    #[error("a block couldn't be read")]
    Read,
    /// A growth was refused: number 10.
    #[error("out of memory")]
    Memory,
}

impl DirectFault {
    /// The refusal's number among all refusals.
    pub fn number(self) -> u8
        ensures { result ≡ direct_fault_number self }
    {
        match self {
            DirectFault::File(fault) => fault.number(),
            DirectFault::Astray => 40,
            DirectFault::Read => 41,
            DirectFault::Memory => 10,
        }
    }

    /// The place of the block at fault, the header's being 0, where the number is 30 to 35.
    pub fn place(self) -> Option<u32>
        ensures { result ≡ direct_fault_place self }
    {
        match self {
            DirectFault::File(FileFault::Block { place, .. }) => Some(place),
            _ => None,
        }
    }

    /// The fault of a block at a place whose image isn't what belongs there.
    pub fn at_place(place: u32, fault: ImageFault) -> DirectFault
        ensures { result ≡ fault_at place fault }
    {
        match fault {
            ImageFault::Memory => DirectFault::Memory,
            fault => DirectFault::File(FileFault::Block { place, fault }),
        }
    }
}

impl From<FileFault> for DirectFault {
    ghost from_gives = { λ file fault. fault ≡ File file };

    fn from(fault: FileFault) -> DirectFault {
        DirectFault::File(fault)
    }
}

impl From<AllocError> for DirectFault {
    ghost from_gives = { λ _ fault. fault ≡ Memory };

    fn from(_error: AllocError) -> DirectFault {
        DirectFault::Memory
    }
}
