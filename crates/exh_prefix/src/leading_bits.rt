ghost use Rattle.std.specs.Prelude.{◌≡◌, ◌^◌, ◌<◌, ◌≤◌};
ghost use Rattle.exh_prefix.specs.declared.prefix.TheConstants.{WARD_BITS_LIMIT};
ghost use Rattle.exh_prefix.specs.Leading.{leading, first_pseudokey, ward_of};

/// The leading bits of a pseudokey, `count` of them, as a number.
pub fn leading(count: u8, pseudokey: u64) -> u64
    requires { count ≤ 64 }
    ensures { result ≡ leading count pseudokey }
{
    // A shift by all 64 bits isn't defined.
    if count == 0 {
        return 0;
    }
    pseudokey >> (64 - count)
}

/// The number of the ward that a pseudokey belongs to, in a file of 2^`ward_bits` wards: its leading
/// bits as a number.
pub fn ward_number(ward_bits: u8, pseudokey: u64) -> u8
    requires { ward_bits ≤ WARD_BITS_LIMIT }
    ensures { result ≡ ward_of ward_bits pseudokey }
{
    leading(ward_bits, pseudokey) as u8
}

// The first pseudokey whose leading bits, `count` of them, are the number.
pub(crate) fn first_pseudokey(count: u8, number: u64) -> u64
    requires count { count ≤ 64 }
    requires number { number < 2 ^ count }
    ensures first { result ≡ first_pseudokey count number }
    ensures leading { leading count result ≡ number }
{
    if count == 0 {
        return 0;
    }
    number << (64 - count)
}
