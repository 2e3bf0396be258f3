/// What an import came to. Each number is at most the greatest of its type.
#[derive(Clone, Copy, Debug, PartialEq, Eq)]
pub struct Imported {
    /// Lines that were read, with those that are no pairs.
    pub lines: u64,
    /// Pairs that were put.
    pub pairs: u64,
    /// Lines that were rejected but for full keys: wrong ones, and openings and ends amid the text.
    pub rejected: u64,
    /// Keys for which there is no room, so that their pairs weren't put.
    pub full: u64,
    /// The text begins with an opening, and its last line isn't the right end. That line wasn't put.
    pub is_cut_off: bool,
    /// The pairs are committed. Where it is false, none is.
    pub is_committed: bool,
}
