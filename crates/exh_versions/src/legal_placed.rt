use crate::PlacedParts;
use exh_table::Table;

/// What a legal page file of version 3 says, the pages of each ward being read into a `W`.
#[derive(Drop)]
pub struct LegalPlaced<W> {
    pub parts: PlacedParts<W>,
    /// Of each ward, ward 0 first, the table that the cells tell of.
    pub tables: Vec<Table>,
}
