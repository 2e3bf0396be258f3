use crate::FileForm;
use exh_format::LegalFile;

/// What a legal page file of any version says, the pages of each ward being read into a `W`.
#[derive(Drop)]
pub struct AnyFile<W> {
    /// What it says: of version 3 as a file of the versions before would say it.
    pub file: LegalFile<W>,
    /// How it has its pages in places.
    pub form: FileForm,
}
