ghost use Rattle.std.specs.Prelude.{ℕ, Bool, List, [], false};

use std::marker::Brand;

/// What a file was before it was read, which the proof of a call picks.
pub trait Before {
    ghost is_ready: { Bool };

    ghost is_clean: { Bool };

    ghost bytes: { List ℕ };
}

impl Before for Brand {
    ghost is_ready = { false };

    ghost is_clean = { false };

    ghost bytes = { [] };
}
