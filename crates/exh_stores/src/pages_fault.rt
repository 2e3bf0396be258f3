ghost use Rattle.std.specs.Prelude.{◌≡◌};
ghost use Rattle.exh_stores.specs.declared.pages_fault.PagesFault.TheVariants.{Memory, Page};

use std::alloc::AllocError;
use thiserror::Error;

/// Why a store of pages refused a call. Its pages are as they were before the call.
#[derive(Clone, Copy, Debug, PartialEq, Eq, Error)]
pub enum PagesFault {
    /// A growth was refused: number 10.
    #[error("out of memory")]
    Memory,
    /// A page couldn't be reached: number 11. The store counts one failure more.
    #[error("a page is out of reach")]
    Page,
}

impl PagesFault {
    /// The refusal's number among all refusals.
    pub fn number(self) -> u8
        ensures memory { self ≡ PagesFault.Memory → result ≡ 10 }
        ensures page { self ≡ PagesFault.Page → result ≡ 11 }
    {
        match self {
            PagesFault::Memory => 10,
            PagesFault::Page => 11,
        }
    }
}

impl From<AllocError> for PagesFault {
    ghost from_gives = { λ _ fault. fault ≡ Memory };

    fn from(_error: AllocError) -> PagesFault {
        PagesFault::Memory
    }
}
