#![tactic(auto, using(crate::specs::PrefixLemmas::stored_fields))]

ghost use Rattle.std.specs.Prelude.{◌≡◌, ◌≢◌, ℕ, ◌+◌, ◌-◌, ◌^◌, ◌<◌, ◌≤◌, ◌↔◌, Bool, true, false, List, [], ◌∷◌, ◌++◌, length, take, IsTrue, IsSome, IsNone, IfSome, Some, slice_get};
ghost use Rattle.std.specs.Option.{SomeIff};
ghost use Rattle.exh_prefix.specs.declared.prefix.TheConstants.{LIMIT};
ghost use Rattle.exh_prefix.specs.Bits.{bits_of, word_bits, lowest_cleared};
ghost use Rattle.exh_prefix.specs.Prefix.{Begins, HasPrefix, low_of, AreBuddies, prefix_text};

use crate::leading_bits::first_pseudokey;
use std::fmt;
use std::marker::Model;

/// The greatest length of a prefix, in bits.
pub const LIMIT: u8 = 20;

/// The most leading bits by which a file is cut into wards.
pub const WARD_BITS_LIMIT: u8 = 4;

/// A page's number in its ward, from 0 on.
pub type PageNo = u32;

/// The leading bits of pseudokeys, 0 to `LIMIT` of them.
#[derive(Clone, Copy, Debug, PartialEq, Eq, PartialOrd, Ord)]
pub struct Prefix {
    /// The bits from the highest down, then zeros.
    bits: u64,
    /// How many bits there are.
    len: u8,
}

impl Model for Prefix {
    ghost use Rattle.std.specs.Prelude.{ℕ, ◌^◌, ◌<◌, Bool, List, length, take};
    ghost use Rattle.exh_prefix.specs.Bits.{word_bits};
    ghost use Rattle.exh_prefix.specs.Prefix.{HasPrefix, low_of};

    ghost Value = { List Bool };

    ghost view = { λ a. take a.len (word_bits a.bits) };

    ghost invariant = { λ a. HasPrefix a.len a.bits × (a.bits < 2 ^ 64) };

    ghost inverse = { λ p. record { bits = low_of p; len = length p } };

    ghost use Rattle.exh_prefix.specs.PrefixLemmas.{low_of-stored, length-stored};

    ghost inverse_ok = { λ a h i. record { bits = low_of-stored a.len a.bits h.1 h.0 i; len = length-stored a.len a.bits h.0 i } };
}

impl Prefix {
    /// The first `len` bits of `bits`: `None` where `len` is above `LIMIT` or a bit past them is set.
    pub fn new(len: u8, bits: u64) -> Option<Prefix>
        ensures { SomeIff result (HasPrefix len bits) (take len (word_bits bits)) }
    {
        if len > LIMIT || bits << len != 0 {
            return None;
        }
        Some(Prefix { bits, len })
    }

    /// The prefix of `len` bits that spell the number. The prefix of a ward is that of its number, in
    /// as many bits as the file is cut by.
    pub fn of_number(len: u8, number: u64) -> Prefix
        requires len { len ≤ LIMIT }
        requires number { number < 2 ^ len }
        ensures { result ≡ bits_of len number }
    {
        Prefix {
            bits: first_pseudokey(len, number),
            len,
        }
    }

    /// The low bound: the prefix, followed by zeros to 64 bits, as a number.
    pub fn low(self) -> u64
        ensures { result ≡ low_of self }
    {
        self.bits
    }

    /// How many bits there are, 0 to `LIMIT`.
    pub fn len(self) -> u8
        ensures length { result ≡ length self }
        ensures limit { result ≤ LIMIT }
    {
        self.len
    }

    /// Whether this is the empty prefix, which begins every pseudokey.
    pub fn is_empty(self) -> bool
        ensures { IsTrue result ↔ (self ≡ []) }
    {
        self.len == 0
    }

    /// Whether the prefix is the front of the pseudokey's 64 bits (Fagin et al. 1979).
    pub fn begins(self, pseudokey: u64) -> bool
        ensures { IsTrue result ↔ Begins self pseudokey }
    {
        self.bits <= pseudokey && pseudokey - self.bits <= u64::MAX >> self.len
    }

    /// The prefix with one bit more: `None` at `LIMIT`.
    pub fn child(self, bit: bool) -> Option<Prefix>
        ensures { SomeIff result (length self < LIMIT) (self ++ bit ∷ []) }
    {
        if self.len == LIMIT {
            return None;
        }
        Some(Prefix {
            bits: self.bits + (u64::from(bit) << (63 - self.len)),
            len: self.len + 1,
        })
    }

    /// The prefix without its last bit: `None` at the empty prefix.
    pub fn parent(self) -> Option<Prefix>
        ensures none { IsNone result ↔ (self ≡ []) }
        ensures some { IfSome result (λ parent. (bit : Bool) × (self ≡ parent ++ bit ∷ [])) }
        ensures room { IfSome result (λ parent. length parent < LIMIT) }
    {
        if self.len == 0 {
            return None;
        }
        Some(Prefix {
            bits: self.bits - (u64::from(self.is_right_child()) << (64 - self.len)),
            len: self.len - 1,
        })
    }

    /// The prefix that differs in the last bit alone: `None` at the empty prefix.
    pub fn buddy(self) -> Option<Prefix>
        ensures none { IsNone result ↔ (self ≡ []) }
        ensures some { IfSome result (AreBuddies self) }
    {
        let parent = self.parent()?;
        parent.child(!self.is_right_child())
    }

    /// Whether the last bit is 1. The empty prefix is no child.
    pub fn is_right_child(self) -> bool
        ensures { IsTrue result ↔ ((parent : List Bool) × (self ≡ parent ++ true ∷ [])) }
    {
        self.len != 0 && (self.bits >> (64 - self.len)) % 2 == 1
    }

    // The bit at a place, 0 for the first.
    fn bit(self, place: u8) -> bool
        requires { place < length self }
        ensures { slice_get self place ≡ Some result }
    {
        (self.bits >> (63 - place)) % 2 == 1
    }

    /// A low bound with its lowest set bit cleared. 0 stays 0.
    pub fn clear_lowest(low: u64) -> u64
        ensures { result ≡ lowest_cleared low }
    {
        low & low.saturating_sub(1)
    }
}

impl fmt::Display for Prefix {
    ghost output = { λ prefix. Some (prefix_text prefix) };

    fn fmt<W: fmt::Write>(&self, f: &mut fmt::Formatter<W>) -> fmt::Result {
        if self.is_empty() {
            return f.write_str("-");
        }
        for place in 0..self.len() {
            f.write_str(if self.bit(place) { "1" } else { "0" })?;
        }
        Ok(())
    }
}
