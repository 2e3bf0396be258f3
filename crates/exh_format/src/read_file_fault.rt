ghost use Rattle.std.specs.Prelude.{◌≡◌};
ghost use Rattle.exh_format.specs.ReadFileFault.{fault_at, read_file_fault_number};
ghost use Rattle.exh_format.specs.declared.read_file_fault.ReadFileFault.TheVariants.{File, Memory, Read};

use crate::FileFault;
use exh_codec::ImageFault;
use exh_stream::ReadFault;
use std::alloc::AllocError;
use thiserror::Error;

/// Why no page file was read.
#[derive(Clone, Copy, Debug, Error)]
pub enum ReadFileFault {
    /// The bytes aren't a page file: number 30 to 39.
    #[error("{0}")]
    File(FileFault),
    /// The reader failed: number 41.
    #[error("the reader failed")]
    Read,
    /// A growth was refused: number 10.
    #[error("out of memory")]
    Memory,
}

impl ReadFileFault {
    /// The refusal's number among all refusals: of a block's fault that of its image's, 30 to 35.
    pub fn number(self) -> u8
        ensures { result ≡ read_file_fault_number self }
    {
        match self {
            ReadFileFault::File(fault) => fault.number(),
            ReadFileFault::Read => 41,
            ReadFileFault::Memory => 10,
        }
    }

    // The fault of a block at a place whose image isn't what belongs there.
    pub(crate) fn at_place(place: u32, fault: ImageFault) -> ReadFileFault
        ensures { result ≡ fault_at place fault }
    {
        match fault {
            ImageFault::Memory => ReadFileFault::Memory,
            fault => ReadFileFault::File(FileFault::Block { place, fault }),
        }
    }
}

impl From<FileFault> for ReadFileFault {
    ghost from_gives = { λ file fault. fault ≡ File file };

    fn from(fault: FileFault) -> ReadFileFault {
        ReadFileFault::File(fault)
    }
}

impl From<ReadFault> for ReadFileFault {
    ghost from_gives = { λ _ fault. fault ≡ Read };

    fn from(_fault: ReadFault) -> ReadFileFault {
        ReadFileFault::Read
    }
}

impl From<AllocError> for ReadFileFault {
    ghost from_gives = { λ _ fault. fault ≡ Memory };

    fn from(_error: AllocError) -> ReadFileFault {
        ReadFileFault::Memory
    }
}
