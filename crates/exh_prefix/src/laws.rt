//! What holds of all prefixes, for the proofs of callers. Each function does nothing.

ghost use Rattle.std.specs.Prelude.{◌≡◌};
ghost use Rattle.exh_prefix.specs.PrefixLaws.{BeginsItsRange, BeginnersNest, ChildrenPart, LeadingBitsTell, RightChildClears, LeftChildKeepsLow, OrderIsTotal, DecidesEquality};
ghost use Rattle.exh_prefix.specs.Prefix.{prefix_cmp};

use crate::prefix::Prefix;

/// A prefix begins exactly the pseudokeys of its range.
pub fn begins_its_range()
    ensures { BeginsItsRange }
{}

/// Of two prefixes that begin one pseudokey, one begins the other.
pub fn beginners_nest()
    ensures { BeginnersNest }
{}

/// The two children of a prefix part the pseudokeys that it begins.
pub fn children_part()
    ensures { ChildrenPart }
{}

/// A prefix begins exactly the pseudokeys whose leading bits, as a number, are its bits'.
pub fn leading_bits_tell()
    ensures { LeadingBitsTell }
{}

/// The low bound of a right child, its lowest set bit cleared, is its parent's.
pub fn right_child_clears()
    ensures { RightChildClears }
{}

/// A left child has its parent's low bound.
pub fn left_child_keeps_low()
    ensures { LeftChildKeepsLow }
{}

/// The order of prefixes is total, and agrees with equality.
pub fn order_is_total()
    ensures { OrderIsTotal }
{}

/// Two prefixes are equal exactly where their bits are.
pub fn equality_is_of_bits()
    ensures { DecidesEquality ⟦<Prefix as PartialEq>⟧.eq }
{}

/// Prefixes are ordered by low bound, then by length.
pub fn order_is_by_low_bound()
    ensures { ⟦<Prefix as Ord>⟧.cmp ≡ prefix_cmp }
{}
