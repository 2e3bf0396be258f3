ghost use Rattle.std.specs.Prelude.{◌≡◌, ℕ, ◌≤◌, List, length};
ghost use Rattle.std.specs.Option.{SomeIff};

use std::fmt;
use std::marker::Model;

/// Up to `N` bytes, at most 255, in an array. A copy takes no memory, and equal bytes are equal
/// values.
#[derive(Clone, Copy)]
pub(crate) struct ShortBytes<const N: usize> {
    len: u8,
    bytes: [u8; N],
}

impl<const N: usize> Model for ShortBytes<N> {
    ghost use Rattle.std.specs.Prelude.{ℕ, ◌-◌, List, ◌++◌, length, take, replicate};
    ghost use Rattle.exh_page.specs.ShortBytes.{IsStored, length-short_bytes, array-stored};

    ghost Value = { List ℕ };

    ghost view = { λ a. take a.len a.bytes };

    ghost invariant = { λ a. IsStored N a.len a.bytes };

    ghost inverse = { λ bytes. record { len = length bytes; bytes = bytes ++ replicate (N - length bytes) 0 } };

    ghost inverse_ok = { λ a h i. record { len = length-short_bytes N a.len a.bytes h i; bytes = array-stored N a.len a.bytes h i } };
}

impl<const N: usize> ShortBytes<N> {
    /// The bytes, `None` where there are more than `N`.
    pub(crate) fn from_slice(bytes: &[u8]) -> Option<ShortBytes<N>>
        requires { N ≤ 255 }
        ensures { SomeIff result (length bytes.now ≤ N) bytes.now }
    {
        if bytes.len() > N {
            return None;
        }
        Some(ShortBytes::of(bytes))
    }

    /// These bytes.
    pub(crate) fn of(bytes: &[u8]) -> ShortBytes<N>
        requires few { N ≤ 255 }
        requires limit { length bytes.now ≤ N }
        ensures { result ≡ bytes.now }
    {
        let mut array = [0; N];
        array[..bytes.len()].copy_from_slice(bytes);
        ShortBytes {
            len: bytes.len() as u8,
            bytes: array,
        }
    }

    pub(crate) fn as_slice(&self) -> &[u8]
        ensures { result.now ≡ self.now }
    {
        &self.bytes[..usize::from(self.len)]
    }
}

impl<const N: usize> PartialEq for ShortBytes<N> {
    ghost use Rattle.std.specs.Prelude.{nat_eq};
    ghost use Rattle.std.specs.Cmp.Lexicographic.{pointwise};
    ghost use Rattle.std.proofs.Common.{rules};
    ghost use Rattle.std.specs.Cmp.Rules.{comparing};

    ghost eq = { pointwise nat_eq };

    ghost laws = { Prim.search (comparing, rules) };

    fn eq(&self, other: &Self) -> bool {
        self.as_slice() == other.as_slice()
    }
}

impl<const N: usize> Eq for ShortBytes<N> {
    ghost use Rattle.std.proofs.Common.{rules};
    ghost use Rattle.std.specs.Cmp.Rules.{comparing};

    ghost laws = { Prim.search (comparing, rules) };
}

impl<const N: usize> fmt::Debug for ShortBytes<N> {
    fn fmt<W: fmt::Write>(&self, f: &mut fmt::Formatter<W>) -> fmt::Result {
        self.as_slice().fmt(f)
    }
}
