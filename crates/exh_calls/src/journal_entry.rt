ghost use Rattle.std.specs.Prelude.{◌≡◌};

use crate::{Call, Reply};

/// A call that was answered, with its caller and its reply.
#[derive(Clone, Copy, PartialEq, Eq)]
pub struct JournalEntry {
    /// The caller's number, which the ward doesn't test.
    pub client: u32,
    pub call: Call,
    pub reply: Reply,
}

impl JournalEntry {
    /// The entry of these three. It takes no memory.
    pub fn new(client: u32, call: &Call, reply: &Reply) -> JournalEntry
        ensures { result ≡ record { client = client; call = call.now; reply = reply.now } }
    {
        JournalEntry {
            client,
            call: *call,
            reply: *reply,
        }
    }
}
