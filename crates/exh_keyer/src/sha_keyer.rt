ghost use Rattle.std.specs.Prelude.{◌≡◌, take};
ghost use Rattle.std.specs.Int.{w64, from_be_bytes};
ghost use Rattle.sha2.specs.Sha256.{sha256};
ghost use Rattle.exh_keyer.specs.Pseudokey.{sha_pseudokey};
ghost use Rattle.exh_keyer.specs.PseudokeyFits.{sha_pseudokey-lt};

use crate::Keyer;
use sha2::{Digest, Sha256};

/// The keyer `sha`: the first eight bytes of the key's SHA-256 (FIPS 180-4) as a
/// big-endian number.
#[derive(Clone, Copy)]
pub struct ShaKeyer;

impl Keyer for ShaKeyer {
    ghost pseudokey_of = { λ _ key. sha_pseudokey key };

    ghost pseudokey_fits = { λ _ key. sha_pseudokey-lt key };

    #[tactic(auto, unfolding(crate::specs::Pseudokey::leading_number))]
    fn pseudo(&self, key: &[u8]) -> u64
        ensures pseudokey { result ≡ sha_pseudokey key.now }
        // A digest's bytes are real bytes: the definition's remainder changes nothing.
        ensures bytes { result ≡ from_be_bytes w64 (take 8 (sha256 key.now)) }
    {
        let [a, b, c, d, e, f, g, h, ..] = Sha256::digest(key);
        u64::from_be_bytes([a, b, c, d, e, f, g, h])
    }
}
