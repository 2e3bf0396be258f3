use exh_placing::{Cell, PageAt};

/// Which state of which file a file of version 3 is.
#[derive(Clone, Copy, Debug)]
pub struct Stamps {
    /// The file's stamp.
    pub own: u64,
    /// The stamp before it.
    pub before: u64,
}

/// How wards stand in a file of version 3.
#[derive(Drop)]
pub struct Placing {
    /// The page at each place.
    pub(crate) order: Vec<PageAt>,
    /// The cell of each.
    pub(crate) cells: Vec<Cell>,
    /// The file's stamps.
    pub(crate) stamps: Stamps,
}

/// The form of a page file that wards are written as.
#[derive(Drop)]
pub enum Form {
    /// The version that is written elsewhere too: ward by ward.
    Plain,
    /// Version 3.
    Placed(Placing),
}
