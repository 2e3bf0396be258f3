use crate::import_refusal::ImportRefusal;
use exh_import::Imported;

/// What an import came to.
#[derive(Drop)]
pub(crate) struct Outcome {
    pub(crate) imported: Result<Imported, ImportRefusal>,
    /// The page file was made for it.
    pub(crate) is_made: bool,
    /// Writing the file for lines that aren't put in failed.
    pub(crate) is_unwritten: bool,
}
