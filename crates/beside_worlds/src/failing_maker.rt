//! Stores of which one call fails.

use exh_frames::{FailingPages, Pages, StoreMaker};
use exh_keyer::Keyer;
use exh_page::Page;
use std::alloc::{AllocError, Global};

/// Makes stores over those that another maker makes, of which the call of this number fails; 0 is no call's.
#[derive(Clone, Copy)]
pub(crate) struct FailingMaker<M> {
    pub(crate) inner: M,
    pub(crate) at: u64,
}

impl<P: Pages + Drop, K: Keyer, M: StoreMaker<P, K>> StoreMaker<FailingPages<P>, K>
    for FailingMaker<M> {
    type Read = M::Read;

    fn first(&self, alloc: Global, keyer: K, page: Page) -> Result<FailingPages<P>, AllocError> {
        Ok(FailingPages::new(self.inner.first(alloc, keyer, page)?, self.at))
    }

    fn of_read(&self, alloc: Global, read: M::Read) -> Result<FailingPages<P>, AllocError> {
        Ok(FailingPages::new(self.inner.of_read(alloc, read)?, self.at))
    }
}
