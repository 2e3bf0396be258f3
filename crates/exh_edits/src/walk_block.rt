use exh_cells::Cell;

/// A walk block that was read.
#[derive(Drop)]
pub(crate) struct WalkBlock {
    /// The number of its group, from 0 on.
    pub(crate) group: u32,
    /// The cells of the group's pages, 1 to 24 of them, in the order of their places.
    pub(crate) cells: Vec<Cell>,
}
