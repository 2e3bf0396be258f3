ghost use Rattle.std.specs.Prelude.{◌≡◌};
ghost use Rattle.exh_notice.specs.NoticeFault.{notice_fault_number};

use thiserror::Error;

/// Why bytes are no image of an entry or a notice.
#[derive(Clone, Copy, Debug, PartialEq, Eq, Error)]
pub enum NoticeFault {
    /// The kind byte is neither a split's nor a merge's (refusal 30).
    #[error("the kind byte is neither 1 nor 2")]
    Kind,
    /// A byte that must be zero isn't (refusal 33).
    #[error("a byte that must be zero isn't")]
    Padding,
    /// The prefix is too long, or a bit past its length is set (refusal 35).
    #[error("the prefix is too long or has a bit past its length")]
    Prefix,
}

impl NoticeFault {
    /// The refusal's number among all refusals.
    pub fn number(self) -> u8
        ensures { result ≡ notice_fault_number self }
    {
        match self {
            NoticeFault::Kind => 30,
            NoticeFault::Padding => 33,
            NoticeFault::Prefix => 35,
        }
    }
}
