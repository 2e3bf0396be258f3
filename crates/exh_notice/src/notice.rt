ghost use Rattle.std.specs.Prelude.{◌≡◌};
ghost use Rattle.exh_notice.specs.Entry.{entry_of};

use crate::{Entry, Kind};
use exh_prefix::Prefix;

/// What a split or a merge tells every copy of the directory.
#[derive(Clone, Copy, Debug, PartialEq, Eq)]
pub struct Notice {
    /// The ward, 0 to 15.
    pub ward: u8,
    /// The place among the ward's notices, from 1 on.
    pub index: u64,
    /// The prefix of the page that was split, or that a merge made.
    pub prefix: Prefix,
    /// The place among the notices at this prefix, from 1 on.
    pub number: u32,
    pub kind: Kind,
}

impl Notice {
    /// What the notice says of its prefix.
    pub fn entry(&self) -> Entry
        ensures { result ≡ entry_of self.now }
    {
        Entry {
            number: self.number,
            kind: self.kind,
        }
    }
}
