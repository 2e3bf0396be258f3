use crate::FileParts;
use exh_legal::Table;

/// What a legal page file says, the pages of each ward being read into a `W`.
#[derive(Drop)]
pub struct LegalFile<W> {
    pub parts: FileParts<W>,
    /// Of each ward, ward 0 first, the table of the entries that name it.
    pub tables: Vec<Table>,
}
