use exh_calls::Reply;
use exh_edits::BlockEdit;

/// What calls make of a page file.
#[derive(Drop)]
pub struct ChangedAll {
    /// One for each call, in their order.
    pub replies: Vec<Reply>,
    /// The stamp that the file has then.
    pub stamp: u64,
    /// The blocks that change, and those that stand behind the last one then, in their order, at most one of a place; none
    /// where no call changes anything.
    pub edits: Vec<BlockEdit>,
}
