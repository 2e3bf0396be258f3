use exhash::StoreError;
use std::alloc::{AllocError, AllocFailed};
use thiserror::Error;

/// Why a line isn't answered as its words say.
#[derive(Debug, Drop, Error)]
pub(crate) enum LineFault {
    /// Its words ask for nothing.
    #[error("no such line")]
    Wrong,
    /// It asks for a call of a store, and none is open.
    #[error("no store is open")]
    NoStore,
    /// The library refused the call.
    #[error("{0}")]
    Store(StoreError),
}

impl From<StoreError> for LineFault {
    fn from(fault: StoreError) -> LineFault {
        LineFault::Store(fault)
    }
}

impl From<AllocError> for LineFault {
    fn from(error: AllocError) -> LineFault {
        LineFault::Store(StoreError::from(error))
    }
}

impl<T: Drop> From<AllocFailed<T>> for LineFault {
    fn from(error: AllocFailed<T>) -> LineFault {
        LineFault::Store(StoreError::from(error))
    }
}
