use thiserror::Error;

/// Why a text is no record. Its text is a sentence without a full stop. Bytes are counted from 1 on.
#[derive(Clone, Copy, Debug, PartialEq, Eq, Error)]
pub enum WrongRecord {
    /// A quoted field has no closing quote.
    #[error("a quoted field isn't closed")]
    OpenQuote,
    /// Behind the closing quote of a field stands another byte than a comma.
    #[error("at byte {at} a comma is wanted, behind a closing quote")]
    BehindQuote { at: usize },
}
