use crate::{PairFormat, WrongLine};
use exh_page::{Key, Value};

/// What a line of a text of pairs is.
#[derive(Clone, Copy)]
pub enum Line {
    /// A pair.
    Pair { key: Key, value: Value },
    /// The first line of an export, which names its format.
    Opening(PairFormat),
    /// The last line of an export, which has the number of its pairs.
    End(u64),
    /// No bytes.
    Empty,
    /// None of these, and why it is no pair.
    Wrong(WrongLine),
}
