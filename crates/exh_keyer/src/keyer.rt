ghost use Rattle.std.specs.Prelude.{◌≡◌, ◌<◌, ◌^◌, ℕ, List};

/// Gives each key its pseudokey, the 64 bits by whose leading bits an extendible hash file is
/// organised (Fagin et al. 1979).
pub trait Keyer: Copy {
    /// The pseudokey of a key's bytes.
    ghost pseudokey_of: { Self → List ℕ → ℕ };

    /// The pseudokey of `key`, which may have any length. It takes no memory, and always succeeds.
    fn pseudo(&self, key: &[u8]) -> u64
        ensures { result ≡ pseudokey_of self.now key.now };

    /// Every pseudokey is a number of 64 bits.
    ghost pseudokey_fits: { (keyer : Self) (key : List ℕ) → pseudokey_of keyer key < 2 ^ 64 };
}

/// The pseudokeys of two keys. A pseudokey depends on the bytes alone: keys of equal bytes have equal
/// ones, wherever they lie.
pub fn pseudo_of_both<K: Keyer>(keyer: &K, one: &[u8], other: &[u8]) -> (u64, u64)
    ensures one { result.0 ≡ K.pseudokey_of keyer.now one.now }
    ensures other { result.1 ≡ K.pseudokey_of keyer.now other.now }
    ensures bytes_alone { one.now ≡ other.now → result.0 ≡ result.1 }
{
    (keyer.pseudo(one), keyer.pseudo(other))
}
