use exh_page::Page;

/// A live page whose prefix begins a pseudokey.
#[derive(Drop)]
pub struct Home {
    /// Its place in the file.
    pub place: u32,
    pub page: Page,
}
