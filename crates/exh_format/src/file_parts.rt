use crate::{FileEntry, Header};

/// What a page file says, the pages of each ward being read into a `W`.
#[derive(Drop)]
pub struct FileParts<W> {
    pub header: Header,
    /// The pages of each ward in the order of their numbers, ward 0 first.
    pub wards: Vec<W>,
    /// The table, in rising order of prefixes.
    pub entries: Vec<FileEntry>,
}
