use thiserror::Error;

/// Why a line is refused before anything is done for it.
#[derive(Clone, Copy, Debug, PartialEq, Eq, Error)]
pub enum LineFault {
    /// The line is outside the grammar (refusal 60).
    #[error("the line is outside the grammar")]
    Syntax,
    /// The line is in the grammar, and a number, key or value of it is out of its range (refusal 61).
    #[error("a number, key or value of the line is out of its range")]
    Range,
}

impl LineFault {
    ghost use Rattle.std.specs.Prelude.{◌≡◌};
    ghost use Rattle.exh_text.specs.LineFault.{line_fault_number};

    /// The number by which the refusal is printed.
    pub fn number(self) -> u32
        ensures { result ≡ line_fault_number self }
    {
        match self {
            LineFault::Syntax => 60,
            LineFault::Range => 61,
        }
    }
}
