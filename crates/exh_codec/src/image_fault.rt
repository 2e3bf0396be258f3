ghost use Rattle.std.specs.Prelude.{◌≡◌};
ghost use Rattle.exh_codec.specs.declared.image_fault.ImageFault.TheVariants.{Memory};

use std::alloc::AllocError;
use thiserror::Error;

/// Why a block isn't the image of a page. Each fault but `Memory` is named after
/// the test that fails.
#[derive(Clone, Copy, Debug, Error)]
pub enum ImageFault {
    /// A growth was refused: number 10.
    #[error("out of memory")]
    Memory,
    /// The kind byte is none of a page's: number 30.
    #[error("a byte that says what kind of image this is says nothing known")]
    Kind,
    /// A count or a length is out of its range: number 31.
    #[error("a count or a length is out of its range")]
    Length,
    /// Records don't rise: number 32.
    #[error("records don't rise")]
    Order,
    /// A byte that must be zero isn't: number 33.
    #[error("a byte that must be zero isn't")]
    Padding,
    /// The digest isn't that of the content: number 34.
    #[error("the digest isn't that of the content")]
    Digest,
    /// A prefix or low bound is none, or a record isn't begun by it: number 35.
    #[error("a prefix or low bound is none, or doesn't begin a record")]
    Prefix,
}

impl ImageFault {
    ghost use Rattle.std.specs.Prelude.{◌≡◌};
    ghost use Rattle.exh_codec.specs.ImageFault.{image_fault_number};

    /// The refusal's number among all refusals.
    pub fn number(self) -> u8
        ensures { result ≡ image_fault_number self }
    {
        match self {
            ImageFault::Memory => 10,
            ImageFault::Kind => 30,
            ImageFault::Length => 31,
            ImageFault::Order => 32,
            ImageFault::Padding => 33,
            ImageFault::Digest => 34,
            ImageFault::Prefix => 35,
        }
    }
}

impl From<AllocError> for ImageFault {
    ghost from_gives = { λ _ fault. fault ≡ Memory };

    fn from(_error: AllocError) -> ImageFault {
        ImageFault::Memory
    }
}
