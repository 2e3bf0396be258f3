ghost use Rattle.std.specs.Prelude.{◌≡◌, Some};
ghost use Rattle.exh_keyer.specs.declared.any_keyer.AnyKeyer.TheVariants.{Plain, Sha};
ghost use Rattle.exh_keyer.specs.Pseudokey.{any_pseudokey, keyer_word};
ghost use Rattle.exh_keyer.specs.PseudokeyFits.{any_pseudokey-lt};

use crate::{Keyer, PlainKeyer, ShaKeyer};
use std::fmt;

/// Either keyer, where a file or a script chooses. It prints as `plain` or `sha`.
#[derive(Clone, Copy)]
pub enum AnyKeyer {
    Plain,
    Sha,
}

impl AnyKeyer {
    /// The word by which a keyer is named, as it prints.
    pub fn word(self) -> &'static str
        ensures { result.now ≡ keyer_word self }
    {
        match self {
            AnyKeyer::Plain => "plain",
            AnyKeyer::Sha => "sha",
        }
    }
}

impl Keyer for AnyKeyer {
    ghost pseudokey_of = { any_pseudokey };

    ghost pseudokey_fits = { any_pseudokey-lt };

    fn pseudo(&self, key: &[u8]) -> u64 {
        match self {
            AnyKeyer::Plain => PlainKeyer.pseudo(key),
            AnyKeyer::Sha => ShaKeyer.pseudo(key),
        }
    }
}

impl From<PlainKeyer> for AnyKeyer {
    ghost from_gives = { λ _ keyer. keyer ≡ Plain };

    fn from(_keyer: PlainKeyer) -> AnyKeyer {
        AnyKeyer::Plain
    }
}

impl From<ShaKeyer> for AnyKeyer {
    ghost from_gives = { λ _ keyer. keyer ≡ Sha };

    fn from(_keyer: ShaKeyer) -> AnyKeyer {
        AnyKeyer::Sha
    }
}

impl fmt::Display for AnyKeyer {
    ghost output = { λ keyer. Some (keyer_word keyer) };

    fn fmt<W: fmt::Write>(&self, f: &mut fmt::Formatter<W>) -> fmt::Result {
        f.write_str(self.word())
    }
}
