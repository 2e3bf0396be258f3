ghost use Rattle.std.specs.Prelude.{ℕ, List, []};

use std::marker::Brand;

/// The keys that a reading is to find, which the proof of a call picks.
pub(crate) trait Wanted {
    ghost all_keys: { List (List ℕ) };
}

impl Wanted for Brand {
    ghost all_keys = { [] };
}
