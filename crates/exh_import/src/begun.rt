ghost use Rattle.std.specs.Prelude.{◌≡◌};
ghost use Rattle.exh_import.specs.Counting.{lines_begun};

/// What of a text was taken before its pairs are.
#[derive(Clone, Copy, Debug, PartialEq, Eq)]
pub struct Begun {
    /// The opening of an export, which is then its first line.
    pub is_opened: bool,
    /// A header.
    pub has_header: bool,
}

impl Begun {
    /// Nothing.
    pub const NOTHING: Begun = Begun {
        is_opened: false,
        has_header: false,
    };

    // How many lines that are.
    pub(crate) fn lines(self) -> u64
        ensures { result ≡ lines_begun self }
    {
        match (self.is_opened, self.has_header) {
            (false, false) => 0,
            (true, false) | (false, true) => 1,
            (true, true) => 2,
        }
    }
}
