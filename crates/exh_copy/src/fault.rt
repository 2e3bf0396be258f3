use crate::{CopyWriter, Start};
use std::alloc::AllocError;
use thiserror::Error;

/// `left_right` gave no place for a reader: each is in use.
#[derive(Clone, Copy, Debug, Error)]
#[error("no place is left for a reader")]
pub struct NoPlace;

impl NoPlace {
    /// The refusal's number in texts.
    pub const NUMBER: u8 = 52;
}

/// Why no copy is made.
pub enum NewCopyFault<S: Start> {
    /// Memory was refused.
    Memory,
    /// `left_right` gave no place for a reader. The writer comes back, to be closed: it can't be let
    /// go, and closing it may wait.
    NoPlace(CopyWriter<S>),
}

impl<S: Start> From<AllocError> for NewCopyFault<S> {
    fn from(_: AllocError) -> NewCopyFault<S> {
        NewCopyFault::Memory
    }
}
