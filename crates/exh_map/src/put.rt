ghost use Rattle.std.specs.Prelude.{◌≡◌};
ghost use Rattle.exh_map.specs.Answers.{put_said};

use exh_calls::Reply;
use exh_page::Value;

/// What a put came to.
#[derive(Clone, Copy, Debug, PartialEq, Eq)]
pub enum Put {
    /// The key had no value, and has the given one now.
    New,
    /// The key had this value, and has the given one in its place.
    Was(Value),
    /// The key has no value and gets none: as many keys as a page holds share the first 20 bits of its hash.
    Full,
}

impl Put {
    /// What the reply to a put says.
    pub fn of(reply: Reply) -> Put
        ensures { result ≡ put_said reply }
    {
        match reply {
            Reply::New => Put::New,
            Reply::Was(value) => Put::Was(value),
            _ => Put::Full,
        }
    }
}
