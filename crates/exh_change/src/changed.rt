use exh_calls::Reply;
use exh_edits::BlockEdit;

/// What a call makes of a page file.
#[derive(Drop)]
pub struct Changed {
    pub reply: Reply,
    /// The blocks that change, and those that stand behind the last one then, in their order; none where the map stays.
    pub edits: Vec<BlockEdit>,
}
