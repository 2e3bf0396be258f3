ghost use Rattle.std.specs.Prelude.{◌≡◌};
ghost use Rattle.exh_map.specs.Answers.{swap_said};

use exh_calls::Reply;
use exh_page::Value;

/// What a swap came to.
#[derive(Clone, Copy, Debug, PartialEq, Eq)]
pub enum Swap {
    /// The key had the old value, and has the new one now.
    Swapped,
    /// The key has this value, which isn't the old one, and stays.
    Differs(Value),
    /// The key has no value, and gets none.
    None,
}

impl Swap {
    /// What the reply to a swap says.
    pub fn of(reply: Reply) -> Swap
        ensures { result ≡ swap_said reply }
    {
        match reply {
            Reply::Swapped => Swap::Swapped,
            Reply::Differs(value) => Swap::Differs(value),
            _ => Swap::None,
        }
    }
}
