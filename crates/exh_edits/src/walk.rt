ghost use Rattle.std.specs.Prelude.{◌≡◌, ◌<◌, ◌≤◌, length, get_or, false};
ghost use Rattle.exh_prefix.specs.declared.prefix.TheConstants.{LIMIT, WARD_BITS_LIMIT};
ghost use Rattle.exh_prefix.specs.Bits.{word_bits};
ghost use Rattle.exh_prefix.specs.Prefix.{Begins};
ghost use Rattle.exh_edits.specs.CellWalk.{first_leaf};

use exh_prefix::{Prefix, ward_number};
use exh_table::Leaf;

/// Where a walk for a pseudokey begins: at its first bits, so many, with the page of the place that they say.
pub(crate) fn first_leaf(ward_bits: u8, pseudokey: u64) -> Leaf
    requires { ward_bits ≤ WARD_BITS_LIMIT }
    ensures { result ≡ first_leaf ward_bits pseudokey }
{
    let ward = ward_number(ward_bits, pseudokey);
    Leaf {
        prefix: Prefix::of_number(ward_bits, u64::from(ward)),
        page: u32::from(ward),
    }
}

/// The bit that follows a prefix in a pseudokey that it begins.
pub(crate) fn next_bit(prefix: Prefix, pseudokey: u64) -> bool
    requires room { length prefix < LIMIT }
    requires begins { Begins prefix pseudokey }
    ensures { result ≡ get_or (word_bits pseudokey) (length prefix) false }
{
    match prefix.child(true) {
        Some(right) => right.begins(pseudokey),
        None => unreachable!(),
    }
}
