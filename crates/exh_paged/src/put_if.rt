use exh_page::{Key, Value};

/// A put that is made only of a key that is as it should be.
#[derive(Clone, Copy)]
pub struct PutIf {
    pub key: Key,
    pub value: Value,
    /// What the key has to be.
    pub key_is: KeyIs,
}

/// What a key is in a map.
#[derive(Clone, Copy, Debug, PartialEq, Eq)]
pub enum KeyIs {
    /// It has no value.
    New,
    /// It has a value.
    There,
}
