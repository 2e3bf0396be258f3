ghost use Rattle.std.specs.Prelude.{ℕ, List};

use crate::ledgers::LedgerNames;
use std::marker::Brand;

/// Which file it is. Whoever makes a live file picks a type for it, by which the file and its seats
/// belong together.
pub trait Identity: LedgerNames {
    /// How the file's keyer turns the bytes of a key into its pseudokey.
    ghost hashing: { List ℕ → ℕ };
}

/// By which a call picks the file.
impl Identity for Brand {
    ghost hashing = { λ _. 0 };
}
