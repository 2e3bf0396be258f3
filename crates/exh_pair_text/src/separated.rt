ghost use Rattle.std.specs.Prelude.{◌≡◌};
ghost use Rattle.exh_pair_text.specs.Formats.{separator};

/// How a line has a key, one separating byte, and a value.
#[derive(Clone, Copy, PartialEq, Eq)]
pub(crate) enum Separated {
    /// Words, with a space between.
    Words,
    /// Bytes with escapes, with a tab between.
    Tsv,
}

impl Separated {
    // The byte between a key and its value.
    pub(crate) fn separator(self) -> u8
        ensures { result ≡ separator self }
    {
        match self {
            Separated::Words => b' ',
            Separated::Tsv => b'\t',
        }
    }
}
