use exh_frames::FileStore;
use exh_page::Key;
use exhash::Opened;

/// The pairs of a map, made anew.
#[derive(Drop)]
pub enum Compacted {
    /// In these wards, which have so many.
    Wards {
        wards: Opened<FileStore>,
        records: usize,
    },
    /// For these keys, in the order of the pages, there is no room.
    Full(Vec<Key>),
}
