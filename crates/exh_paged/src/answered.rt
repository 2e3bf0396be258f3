use exh_calls::Reply;

/// What a list of calls is answered.
#[derive(Drop)]
pub struct Answered {
    /// One for each call, in their order.
    pub replies: Vec<Reply>,
    /// The stamp that the file has then.
    pub stamp: u64,
}
