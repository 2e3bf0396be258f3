use exh_cells::{Cell, StampedHeader};

/// What a page file of version 3 says, the pages of each ward being read into a `W`.
#[derive(Drop)]
pub struct PlacedParts<W> {
    pub header: StampedHeader,
    /// The pages of each ward, ward 0 first, in the order of their places: a page's number is its place among them.
    pub wards: Vec<W>,
    /// The low bound of each page of the file, in the order of their places.
    pub lows: Vec<u64>,
    /// The cell of each page of the file, in the order of their places.
    pub cells: Vec<Cell>,
}
