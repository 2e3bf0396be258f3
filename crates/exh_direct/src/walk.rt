ghost use Rattle.std.specs.Prelude.{◌≡◌, ◌<◌, ◌≤◌, length, get_or, false};
ghost use Rattle.exh_prefix.specs.declared.prefix.TheConstants.{LIMIT, WARD_BITS_LIMIT};
ghost use Rattle.exh_prefix.specs.Bits.{word_bits};
ghost use Rattle.exh_prefix.specs.Prefix.{Begins};
ghost use Rattle.exh_direct.specs.TableSearch.{first_leaf};

use exh_format::Leaf;
use exh_prefix::{Prefix, leading};

/// Where a walk for a pseudokey begins: at its first bits, so many, with page 0.
pub(crate) fn first_leaf(ward_bits: u8, pseudokey: u64) -> Leaf
    requires { ward_bits ≤ WARD_BITS_LIMIT }
    ensures { result ≡ first_leaf ward_bits pseudokey }
{
    Leaf {
        prefix: Prefix::of_number(ward_bits, leading(ward_bits, pseudokey)),
        page: 0,
    }
}

/// The bit that follows a prefix in a pseudokey that it begins.
pub(crate) fn next_bit(prefix: Prefix, pseudokey: u64) -> bool
    requires room { length prefix < LIMIT }
    requires begins { Begins prefix pseudokey }
    ensures { result ≡ get_or (word_bits pseudokey) (length prefix) false }
{
    match prefix.child(true) {
        Some(right) => right.begins(pseudokey),
        None => unreachable!(),
    }
}
