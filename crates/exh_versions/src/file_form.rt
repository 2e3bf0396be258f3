/// How a page file that was read has its pages in places.
#[derive(Drop)]
pub enum FileForm {
    /// Of version 1 or 2: ward by ward.
    Plain,
    /// Of version 3: as they were born.
    Placed(PlacedForm),
}

/// The places of a page file of version 3, and its state.
#[derive(Drop)]
pub struct PlacedForm {
    /// The low bound of each page of the file, in the order of their places.
    pub lows: Vec<u64>,
    /// The file's own stamp.
    pub stamp: u64,
}
