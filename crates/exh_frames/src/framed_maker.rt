ghost use Rattle.std.specs.Prelude.{◌≡◌, ◌↔◌, IfOk, IsErrOf};
ghost use Rattle.std.specs.NonZero.{non_zero_usize_get};
ghost use Rattle.exh_frames.specs.CacheSize.{IsCacheSize};

use crate::cache_size::to_cache_size;
use crate::{CacheFault, FramedPages, Images};
use exh_keyer::Keyer;
use exh_page::Page;
use exh_stores::StoreMaker;
use std::alloc::{AllocError, Global};
use std::num::NonZeroUsize;

/// Makes stores of images, each behind a cache of the same size.
#[derive(Clone, Copy)]
pub struct FramedMaker {
    pub(crate) size: usize,
    ghost in_range: { IsCacheSize size },
}

impl FramedMaker {
    /// A maker of stores behind caches of 1 to 1,024 decoded pages: `CacheFault::Size` for any other
    /// size.
    pub fn new(cache_size: usize) -> Result<FramedMaker, CacheFault>
        ensures size { IsErrOf result CacheFault.Size ↔ (IsCacheSize cache_size → ⊥) }
    {
        let size = to_cache_size(cache_size)?.get();
        Ok(FramedMaker { size })
    }

    // The size of a cache.
    fn cache_size(self) -> NonZeroUsize
        ensures { non_zero_usize_get result ≡ self.size }
    {
        match NonZeroUsize::new(self.size) {
            Some(size) => size,
            None => unreachable!(),
        }
    }
}

impl<K: Keyer> StoreMaker<FramedPages<K>, K> for FramedMaker {
    type Read = Images<K>;

    fn first(&self, alloc: Global, keyer: K, page: Page) -> Result<FramedPages<K>, AllocError> {
        FramedPages::of_first(alloc, page, keyer, self.cache_size())
    }

    fn of_read(&self, alloc: Global, read: Images<K>) -> Result<FramedPages<K>, AllocError> {
        FramedPages::of_images(alloc, read, self.cache_size())
    }
}
