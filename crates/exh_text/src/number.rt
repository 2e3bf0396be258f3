ghost use Rattle.std.specs.Prelude.{◌≡◌, ◌-◌, ◌^◌};
ghost use Rattle.exh_text.specs.Numbers.{number_spelled, index_spelled, number_after, digits_up_to};

/// The index that a word spells: `0`, or decimal digits without a leading zero, at most 18,446,744,073,709,551,615.
#[tactic(auto, using(crate::proofs::Numbers::numeral_cases))]
pub fn parse_u64(word: &[u8]) -> Option<u64>
    ensures { result ≡ index_spelled word.now }
{
    match word {
        [] | [b'0', _, ..] => None,
        _ => parse_digits(word),
    }
}

/// The number that a word spells: the same, at most 4,294,967,295.
#[tactic(auto, using(crate::proofs::Numbers::narrow_none))]
pub fn parse_u32(word: &[u8]) -> Option<u32>
    ensures { result ≡ number_spelled word.now }
{
    u32::try_from(parse_u64(word)?).ok()
}

/// The number behind a prefix, as in `r7` or `cap=2`.
#[tactic(auto, unfolding(crate::specs::Numbers::number_after))]
pub fn parse_u32_after(prefix: &[u8], word: &[u8]) -> Option<u32>
    ensures { result ≡ number_after prefix.now word.now }
{
    parse_u32(word.strip_prefix(prefix)?)
}

// The number of these decimal digits. `None` where another byte is among them, or it is above 2^64 - 1.
#[tactic(auto, using(crate::proofs::Numbers::digits_steps))]
fn parse_digits(digits: &[u8]) -> Option<u64>
    ensures { result ≡ digits_up_to (2 ^ 64 - 1) 0 digits.now }
{
    let mut number: u64 = 0;
    for digit in digits {
        if !digit.is_ascii_digit() {
            return None;
        }
        number = number
            .checked_mul(10)?
            .checked_add(u64::from(digit - b'0'))?;
    }
    Some(number)
}
