use exh_cells::StampedHeader;
use exh_edits::Edits;

/// A page file that is being changed.
#[derive(Drop)]
pub(crate) struct Draft {
    pub(crate) header: StampedHeader,
    pub(crate) edits: Edits,
}
