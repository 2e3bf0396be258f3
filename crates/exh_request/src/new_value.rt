//! The value of a put.

use exh_page::Value;

/// The value that a key is given.
#[derive(Clone, Copy)]
pub enum NewValue {
    /// A word's.
    Word(Value),
    /// What stands on standard input.
    Input,
}
