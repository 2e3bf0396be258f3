//! Why pairs aren't imported.

use exh_import::ImportFault;
use exh_run::StoreError;

/// Why an import ended before its text's end, and how many pairs were committed until then.
#[derive(Drop)]
pub(crate) enum ImportRefusal {
    /// The page file isn't opened.
    Unopened(StoreError),
    /// The file for lines that aren't put in isn't made.
    Unmade(StoreError),
    /// The text isn't read to its end, or memory ran out.
    Text { fault: ImportFault, pairs: u64 },
    /// The page file isn't changed, or not opened again.
    Store { fault: StoreError, pairs: u64 },
}
