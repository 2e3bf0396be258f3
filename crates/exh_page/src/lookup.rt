use crate::{LentValue, PageHead, Spot};

/// What a page has for a key.
#[derive(Drop)]
pub struct Lookup<'a> {
    /// All of the page but its records.
    pub head: PageHead,
    /// Where the record of the key stands, if the page has one.
    pub spot: Option<Spot>,
    /// The value of that record.
    pub value: Option<LentValue<'a>>,
}
