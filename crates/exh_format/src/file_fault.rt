ghost use Rattle.std.specs.Prelude.{◌≡◌};
ghost use Rattle.exh_format.specs.FileFault.{file_fault_number};

use exh_codec::ImageFault;
use thiserror::Error;

/// Why bytes aren't a page file.
#[derive(Clone, Copy, Debug, Error)]
pub enum FileFault {
    /// A block isn't the image that belongs at its place, the header's being 0: the number of its
    /// fault, 30 to 35.
    #[error("block {place}: {fault}")]
    Block { place: u32, fault: ImageFault },
    /// The file doesn't begin as a page file does: number 36.
    #[error("the file doesn't begin as a page file does")]
    Magic,
    /// The file is of another version: number 37.
    #[error("the page file is of another version")]
    Version,
    /// A block ends early: number 38.
    #[error("a block ends early")]
    Truncated,
    /// A byte stands after the last block: number 39.
    #[error("a byte stands after the last block")]
    Trailing,
}

impl FileFault {
    /// The refusal's number among all refusals.
    pub fn number(self) -> u8
        ensures { result ≡ file_fault_number self }
    {
        match self {
            FileFault::Block { fault, .. } => fault.number(),
            FileFault::Magic => 36,
            FileFault::Version => 37,
            FileFault::Truncated => 38,
            FileFault::Trailing => 39,
        }
    }
}
