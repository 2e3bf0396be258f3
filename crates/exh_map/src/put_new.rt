ghost use Rattle.std.specs.Prelude.{◌≡◌};
ghost use Rattle.exh_map.specs.Answers.{put_new_said};

use exh_calls::Reply;
use exh_page::Value;

/// What a put came to that replaces no value.
#[derive(Clone, Copy, Debug, PartialEq, Eq)]
pub enum PutNew {
    /// The key had no value, and has the given one now.
    New,
    /// The key has this value, which stays.
    Is(Value),
    /// The key has no value and gets none: as many keys as a page holds share the first 20 bits of its hash.
    Full,
}

impl PutNew {
    /// What the reply says to a put that is made where the key has no value, or to the get of it that is made else.
    pub fn of(reply: Reply) -> PutNew
        ensures { result ≡ put_new_said reply }
    {
        match reply {
            Reply::New => PutNew::New,
            Reply::Is(value) | Reply::Was(value) => PutNew::Is(value),
            _ => PutNew::Full,
        }
    }
}
