ghost use Rattle.std.specs.Prelude.{◌≡◌};
ghost use Rattle.exh_legal.specs.Reasons.{rank_of};

use thiserror::Error;

/// Why a page file isn't legal, in the order in which it is tested. As a refusal it is number 40 with
/// this reason.
#[derive(Clone, Copy, Debug, Error)]
pub enum Reason {
    /// A live page has more than cap records.
    #[error("reason 1")]
    Cap,
    /// Page 0 of a ward isn't live or hasn't the ward's low bound, a low bound is outside its ward, or
    /// two pages of a ward share one.
    #[error("reason 2")]
    LowBounds,
    /// A live prefix is shorter than its ward's, or a pseudokey of a ward isn't begun by exactly one
    /// live prefix of it.
    #[error("reason 3")]
    Leaves,
    /// A right link isn't the live page with the next greater low bound, or none where there is none.
    #[error("reason 4")]
    Links,
    /// A target isn't the page whose low bound is the forwarding page's with the lowest set bit cleared.
    #[error("reason 5")]
    Forwards,
    /// The table's entries aren't those that the pages call for.
    #[error("reason 6")]
    Table,
}

impl Reason {
    /// The reason's number among the six, 1 to 6.
    pub fn number(self) -> u8
        ensures { result ≡ rank_of self }
    {
        match self {
            Reason::Cap => 1,
            Reason::LowBounds => 2,
            Reason::Leaves => 3,
            Reason::Links => 4,
            Reason::Forwards => 5,
            Reason::Table => 6,
        }
    }
}
