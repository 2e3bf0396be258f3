/// Where a record stands among others, or where it would.
#[derive(Clone, Copy)]
pub struct Spot {
    /// How many records stand before it.
    pub index: usize,
    /// How many bytes the keys and values of these have.
    pub start: usize,
}
