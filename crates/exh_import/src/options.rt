use crate::Begun;
use exh_pair_text::{Layout, PairFormat};

/// How a text of pairs is imported.
#[derive(Clone, Copy, Debug)]
pub struct ImportOptions<'n> {
    /// The format of its lines.
    pub format: PairFormat,
    /// Keys and values are written in hexadecimal digits.
    pub is_hex: bool,
    /// Which parts of a line they are.
    pub layout: Layout<'n>,
    /// What of it was taken before.
    pub begun: Begun,
    /// All pairs are committed at the end, or, where a line was rejected or the text is cut off, none.
    pub is_atomic: bool,
    /// At least so many pairs are put from one commit to the next, where they aren't all committed at the end, and as many
    /// as were committed before. 0 is as 1.
    pub batch: u64,
}
