ghost use Rattle.std.specs.Prelude.{◌≡◌, ◌+◌, min};
ghost use Rattle.exh_text.specs.Tally.{counted, tallied};

use crate::Kind;

/// How many lines of each kind there were.
#[derive(Clone, Copy)]
pub(crate) struct Tally {
    syntax: u64,
    range: u64,
    full: u64,
}

impl Tally {
    // Of no line.
    pub(crate) const NONE: Tally = Tally {
        syntax: 0,
        range: 0,
        full: 0,
    };

    pub(crate) fn of(self, kind: Kind) -> u64
        ensures { result ≡ counted self kind }
    {
        match kind {
            Kind::Syntax => self.syntax,
            Kind::Range => self.range,
            Kind::Full => self.full,
        }
    }

    // With one line more.
    pub(crate) fn and(self, kind: Kind) -> Tally
        ensures { result ≡ tallied self kind }
    {
        match kind {
            Kind::Syntax => Tally {
                syntax: self.syntax.saturating_add(1),
                ..self
            },
            Kind::Range => Tally {
                range: self.range.saturating_add(1),
                ..self
            },
            Kind::Full => Tally {
                full: self.full.saturating_add(1),
                ..self
            },
        }
    }
}
