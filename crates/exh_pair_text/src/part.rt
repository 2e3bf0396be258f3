/// What a byte of a record is, at its place.
#[derive(Clone, Copy, Debug, PartialEq, Eq)]
pub enum Part {
    /// A quote that is no byte of its field.
    Mark,
    /// A byte of its field.
    Content,
    /// The comma behind a field.
    Comma,
    /// A byte behind a closing quote, which none may be.
    Stray,
}
