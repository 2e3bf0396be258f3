//! The keyer of a word, and the byte and the equality of a file's keyer.
ghost use Rattle.std.specs.Prelude.{◌≡◌, IfSome, IfNone};
ghost use Rattle.exh_keyer.specs.declared.any_keyer.AnyKeyer.{AnyKeyer};
ghost use Rattle.exh_page.specs.Keyers.{is_same_keyer, keyer_byte, keyer_named};

use exh_keyer::AnyKeyer;

/// The keyer of a word, `None` where it is that of none.
pub fn keyer_named(word: &[u8]) -> Option<AnyKeyer>
    ensures { result ≡ keyer_named word.now }
{
    match word {
        b"sha" => Some(AnyKeyer::Sha),
        b"plain" => Some(AnyKeyer::Plain),
        _ => None,
    }
}

/// The byte by which a page file names a keyer.
pub fn keyer_byte(keyer: AnyKeyer) -> u8
    ensures { result ≡ keyer_byte keyer }
{
    match keyer {
        AnyKeyer::Sha => 1,
        AnyKeyer::Plain => 2,
    }
}

/// The keyer of a byte, `None` where it is that of none.
pub fn keyer_of_byte(byte: u8) -> Option<AnyKeyer>
    ensures some { IfSome result (λ keyer. byte ≡ keyer_byte keyer) }
    ensures none { IfNone result ((keyer : AnyKeyer) → byte ≡ keyer_byte keyer → ⊥) }
{
    match byte {
        1 => Some(AnyKeyer::Sha),
        2 => Some(AnyKeyer::Plain),
        _ => None,
    }
}

/// Whether two keyers are the same.
pub fn is_same_keyer(keyer: AnyKeyer, other: AnyKeyer) -> bool
    ensures { result ≡ is_same_keyer keyer other }
{
    match (keyer, other) {
        (AnyKeyer::Plain, AnyKeyer::Plain) | (AnyKeyer::Sha, AnyKeyer::Sha) => true,
        _ => false,
    }
}
