ghost use Rattle.std.specs.Prelude.{◌≡◌};
ghost use Rattle.exh_import.specs.declared.import_fault.ImportFault.TheVariants.{Memory, Read, Refused as StoreRefused};

use crate::Refused;
use exh_pair_text::{PairFormat, WrongHeader};
use exh_stream::ReadFault;
use std::alloc::AllocError;
use thiserror::Error;

/// Why an import ended before the text's end. What was committed until then stays.
#[derive(Clone, Copy, Debug, PartialEq, Eq, Error)]
pub enum ImportFault {
    /// The reader failed, now or before.
    #[error("the reader failed")]
    Read,
    /// A growth was refused.
    #[error("out of memory")]
    Memory,
    /// The line of this number has more than 65,536 bytes.
    #[error("line {number} has more than 65,536 bytes")]
    LongLine { number: u64 },
    /// The text's opening names another format.
    #[error("the text is an export of the format {}", .found.name())]
    OtherFormat { found: PairFormat },
    /// The text's header gives no columns.
    #[error("{0}")]
    Header(WrongHeader),
    /// The text goes on behind 2^64 - 1 lines.
    #[error("it has more lines than can be counted")]
    Endless,
    /// The store refused a put, a commit or a rest. Why is the store's own to tell.
    #[error("the store refused")]
    Refused,
}

impl From<ReadFault> for ImportFault {
    ghost from_gives = { λ _ fault. fault ≡ Read };

    fn from(_fault: ReadFault) -> ImportFault {
        ImportFault::Read
    }
}

impl From<AllocError> for ImportFault {
    ghost from_gives = { λ _ fault. fault ≡ Memory };

    fn from(_error: AllocError) -> ImportFault {
        ImportFault::Memory
    }
}

impl From<Refused> for ImportFault {
    ghost from_gives = { λ _ fault. fault ≡ StoreRefused };

    fn from(_refused: Refused) -> ImportFault {
        ImportFault::Refused
    }
}
