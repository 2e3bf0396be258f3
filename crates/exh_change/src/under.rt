ghost use Rattle.std.specs.Prelude.{ℕ, List, Option, None};

use std::marker::Brand;

/// The bytes of the file under edits, which the proof of a call picks.
pub(crate) trait Under {
    ghost known: { Option (List ℕ) };
}

impl Under for Brand {
    ghost known = { None };
}
