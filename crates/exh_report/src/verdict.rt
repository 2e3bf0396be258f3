/// What a command says of the bytes that it read.
#[derive(Clone, Copy)]
pub enum Verdict {
    /// They are a legal page file.
    Legal,
    /// They are none, or weren't to be read.
    Refused,
}
