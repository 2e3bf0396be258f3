ghost use Rattle.std.specs.Prelude.{◌≡◌, ◌++◌, take, replicate};
ghost use Rattle.std.specs.Int.{w64, from_be_bytes};
ghost use Rattle.exh_keyer.specs.Pseudokey.{plain_pseudokey};
ghost use Rattle.exh_keyer.specs.PseudokeyFits.{plain_pseudokey-lt};

use crate::Keyer;

/// The keyer `plain`: the key's first eight bytes as a big-endian number, with zero
/// bytes after a shorter key.
#[derive(Clone, Copy)]
pub struct PlainKeyer;

// The first eight bytes, with zeros after fewer.
fn first_eight(bytes: &[u8]) -> [u8; 8]
    ensures { result ≡ take 8 (bytes.now ++ replicate 8 0) }
{
    let mut front = [0; 8];
    let len = bytes.len().min(8);
    front[..len].copy_from_slice(&bytes[..len]);
    front
}

impl Keyer for PlainKeyer {
    ghost pseudokey_of = { λ _ key. plain_pseudokey key };

    ghost pseudokey_fits = { λ _ key. plain_pseudokey-lt key };

    #[tactic(auto, unfolding(crate::specs::Pseudokey::leading_number))]
    fn pseudo(&self, key: &[u8]) -> u64
        ensures pseudokey { result ≡ plain_pseudokey key.now }
        // At real bytes the definition's remainder changes nothing.
        ensures bytes { result ≡ from_be_bytes w64 (take 8 (key.now ++ replicate 8 0)) }
    {
        u64::from_be_bytes(first_eight(key))
    }
}
