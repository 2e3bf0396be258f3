use crate::Watch;
use exh_walk::Gate;
use std::alloc::AllocError;

/// Whom all workers of a storm ask before a turn, and whom they tell after it.
pub(crate) struct Overseers<'a, G: Gate, W: Watch> {
    pub(crate) gate: &'a G,
    pub(crate) watch: &'a W,
}

impl<'a, G: Gate, W: Watch> Clone for Overseers<'a, G, W> {
    fn clone(&self) -> Result<Overseers<'a, G, W>, AllocError> {
        Ok(*self)
    }
}

impl<'a, G: Gate, W: Watch> Copy for Overseers<'a, G, W> {}
