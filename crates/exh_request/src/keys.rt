//! The keys of a request.

use exh_page::Key;

/// The keys that a `get` or a `del` is about.
#[derive(Drop)]
pub enum Keys {
    /// One key, which a word names.
    One(Key),
    /// Two keys or more, which words name, in their order.
    Several(Vec<Key>),
    /// The keys on standard input, one a line.
    Input,
}
