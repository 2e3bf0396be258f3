ghost use Rattle.std.specs.Prelude.{◌≡◌, ◌≤◌, take};
ghost use Rattle.std.specs.Option.{SomeIff};
ghost use Rattle.exh_prefix.specs.declared.prefix.TheConstants.{LIMIT, WARD_BITS_LIMIT};
ghost use Rattle.exh_prefix.specs.Bits.{word_bits};
ghost use Rattle.exh_prefix.specs.Prefix.{HasPrefixUpTo};
ghost use Rattle.exh_prefix.specs.Layout.{layout};

use crate::{LIMIT, Prefix};

/// A version of the page file, by how prefixes stand in its images: how long one may be, and in how
/// many bytes it stands.
#[derive(Clone, Copy, Debug, PartialEq, Eq)]
pub enum Version {
    /// A prefix of up to 16 bits stands in two bytes.
    First,
    /// A prefix of up to `LIMIT` bits stands in four bytes.
    Second,
}

/// The version of the images that are written.
pub const WRITTEN: Version = Version::Second;

impl Version {
    /// The greatest length of a prefix, in bits.
    pub fn limit(self) -> u8
        ensures limit { result ≡ (layout self).limit }
        ensures most { result ≤ LIMIT }
        ensures wards { WARD_BITS_LIMIT ≤ result }
    {
        match self {
            Version::First => 16,
            Version::Second => LIMIT,
        }
    }

    /// How many bytes a prefix or low bound has in an image, at most four.
    pub fn bytes(self) -> usize
        ensures bytes { result ≡ (layout self).bytes }
        ensures few { result ≤ 4 }
    {
        match self {
            Version::First => 2,
            Version::Second => 4,
        }
    }

    /// The first `len` bits of `bits`: `None` where `len` is above the version's limit or a bit past
    /// them is set.
    pub fn prefix(self, len: u8, bits: u64) -> Option<Prefix>
        ensures { SomeIff result (HasPrefixUpTo (layout self).limit len bits) (take len (word_bits bits)) }
    {
        if len > self.limit() {
            return None;
        }
        Prefix::new(len, bits)
    }
}
