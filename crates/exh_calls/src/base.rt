ghost use Rattle.std.specs.Prelude.{◌≡◌};
ghost use Rattle.std.specs.FinMap as map;

use crate::{PackedPairs, Pairs};
use std::alloc::Global;
use std::marker::Model;

/// The map from keys to values that a history begins with, packed.
#[derive(Drop)]
pub struct Base {
    pairs: PackedPairs,
}

impl Model for Base {
    ghost use Rattle.std.specs.FinMap as map;
    ghost use Rattle.exh_page.specs.KeyMap.{KeyMap, coded_key_map};

    ghost Value = { KeyMap };

    ghost coded = { coded_key_map };

    ghost view = { λ a. map.from_entries a.pairs };
}

impl Base {
    /// The map of no keys. It takes no memory.
    pub fn new(alloc: Global) -> Base
        ensures { result ≡ map.empty }
    {
        Base {
            pairs: PackedPairs::new(alloc),
        }
    }

    /// The map of pairs: of two pairs of one key the first counts. It takes no memory.
    pub fn from_pairs(pairs: PackedPairs) -> Base
        ensures { result ≡ map.from_entries pairs }
    {
        Base { pairs }
    }

    /// The pairs of the map: of two pairs of one key the first counts. It takes no memory.
    pub fn pairs(&self) -> Pairs<'_>
        ensures { map.from_entries result ≡ self.now }
    {
        self.pairs.iter()
    }
}
