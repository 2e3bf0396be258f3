//! Why words give no request.

use crate::WrongRequest;
use std::alloc::AllocError;
use thiserror::Error;

/// Why the words of an everyday command give no request.
#[derive(Clone, Copy, Debug, Drop, Error)]
pub enum RequestFault {
    /// They are wrong, which the text says.
    #[error("{0}")]
    Wrong(WrongRequest),
    /// Memory ran out before they were read.
    #[error("out of memory")]
    Memory,
}

impl From<AllocError> for RequestFault {
    fn from(_error: AllocError) -> RequestFault {
        RequestFault::Memory
    }
}
