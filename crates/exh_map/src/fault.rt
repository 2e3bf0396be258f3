//! Why there is no copy.

use crate::StoreError;
use thiserror::Error;

/// Why a page file isn't copied. What was there is as before.
#[derive(Debug, Drop, Error)]
pub enum BackupFault {
    /// The file that is to be copied isn't opened or read.
    #[error("{0}")]
    File(StoreError),
    /// The copy isn't made: `Exists` where something is there.
    #[error("{0}")]
    Copy(StoreError),
}
