ghost use Rattle.std.specs.Prelude.{◌≡◌};
ghost use Rattle.exh_text.specs.Kind.{kind_of, kind_of_fault};

use crate::LineFault;

/// Why a line of a text is told of.
#[derive(Clone, Copy)]
pub enum Kind {
    /// It is outside the grammar: `refused 60`.
    Syntax,
    /// A number, key or value of it is out of range: `refused 61`.
    Range,
    /// The pair that it spells found no room: `full`.
    Full,
}

impl Kind {
    // The kind of a line of which this was printed, if it is told of.
    pub(crate) fn of_printed(printed: &[u8]) -> Option<Kind>
        ensures { result ≡ kind_of printed.now }
    {
        if printed == b"refused 60\n".as_slice() {
            Some(Kind::Syntax)
        } else if printed == b"refused 61\n".as_slice() {
            Some(Kind::Range)
        } else if printed.starts_with(b"full ") {
            Some(Kind::Full)
        } else {
            None
        }
    }

    // The kind of a line that is refused with this.
    pub(crate) fn of_fault(fault: LineFault) -> Kind
        ensures { result ≡ kind_of_fault fault }
    {
        match fault {
            LineFault::Syntax => Kind::Syntax,
            LineFault::Range => Kind::Range,
        }
    }
}
