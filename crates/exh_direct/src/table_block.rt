use exh_format::FileEntry;

/// A block of a table that was read.
#[derive(Drop)]
pub(crate) struct TableBlock {
    /// Its number in the table, from 0 on.
    pub(crate) number: usize,
    /// Its entries, 1 to 254 of them, in rising order of prefixes.
    pub(crate) entries: Vec<FileEntry>,
}
