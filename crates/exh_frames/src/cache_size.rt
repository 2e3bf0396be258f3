ghost use Rattle.std.specs.Prelude.{◌≡◌, ◌↔◌, IsErrOf, IfOk};
ghost use Rattle.std.specs.NonZero.{non_zero_usize_get};
ghost use Rattle.exh_frames.specs.CacheSize.{IsCacheSize};
ghost use Rattle.exh_frames.specs.declared.cache_size.CacheFault.TheVariants.{Memory};

use std::alloc::AllocError;
use std::num::NonZeroUsize;
use thiserror::Error;

/// The most decoded pages that a cache holds.
pub const CACHE_SIZE_LIMIT: usize = 1024;

/// Why there is no store behind a cache.
#[derive(Clone, Copy, Debug, PartialEq, Eq, Error)]
pub enum CacheFault {
    /// A growth was refused: number 10.
    #[error("out of memory")]
    Memory,
    /// The cache would hold no page, or more than 1,024: number 61.
    #[error("a cache holds 1 to 1,024 pages")]
    Size,
}

impl CacheFault {
    ghost use Rattle.std.specs.Prelude.{◌≡◌};
    ghost use Rattle.exh_frames.specs.declared.cache_size.CacheFault.{CacheFault};

    /// The refusal's number among all refusals.
    pub fn number(self) -> u8
        ensures memory { self ≡ CacheFault.Memory → result ≡ 10 }
        ensures size { self ≡ CacheFault.Size → result ≡ 61 }
    {
        match self {
            CacheFault::Memory => 10,
            CacheFault::Size => 61,
        }
    }
}

impl From<AllocError> for CacheFault {
    ghost from_gives = { λ _ fault. fault ≡ Memory };

    fn from(_error: AllocError) -> CacheFault {
        CacheFault::Memory
    }
}

// The size, where a cache may have it.
pub(crate) fn to_cache_size(size: usize) -> Result<NonZeroUsize, CacheFault>
    ensures size { IfOk result (λ found. (non_zero_usize_get found ≡ size) × IsCacheSize size) }
    ensures fault { IsErrOf result CacheFault.Size ↔ (IsCacheSize size → ⊥) }
    ensures memory { IsErrOf result CacheFault.Memory → ⊥ }
{
    match NonZeroUsize::new(size) {
        Some(found) if size <= CACHE_SIZE_LIMIT => Ok(found),
        _ => Err(CacheFault::Size),
    }
}
