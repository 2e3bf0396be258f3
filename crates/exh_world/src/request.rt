use exh_calls::Call;
use exh_prefix::PageNo;

/// A request in flight: who asks what, and the page that it has come to.
#[derive(Clone, Copy)]
pub struct Request {
    pub client: u32,
    pub call: Call,
    /// The pseudokey of the call's key, so that the key is hashed once however often it hops.
    pub pseudokey: u64,
    pub ward: u8,
    pub page: PageNo,
    /// How many moves its page was from the answer when it was begun.
    pub distance: u32,
    /// How many moves it has made.
    pub moves: u64,
    /// How many changes its ward had had when it was begun, since the world was made.
    pub changes: u64,
}
