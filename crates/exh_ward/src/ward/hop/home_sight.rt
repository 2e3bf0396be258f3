use exh_page::{LentValue, Spot};

/// What a call's home page has for it, looked up once.
#[derive(Drop)]
pub(crate) struct HomeSight<'a> {
    /// The page has as many records as a page may.
    pub(crate) full: bool,
    /// Where the record of the key stands, if the page has one.
    pub(crate) spot: Option<Spot>,
    /// The key's value, if it has one.
    pub(crate) stood: Option<LentValue<'a>>,
}
