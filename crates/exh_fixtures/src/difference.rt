//! Why a step isn't as it should be.
ghost use Rattle.std.specs.Prelude.{◌↔◌, IsTrue, IsOk};

use std::alloc::AllocError;
use std::fmt;
use thiserror::Error;

/// What is compared.
#[derive(Clone, Copy, Debug)]
pub enum Part {
    Run,
    Reply,
    Hop,
    Change,
    Refusal,
    Outcome,
    Records,
    Walk,
    Journal,
    Taken,
    Entries,
    Leaves,
    Depth,
    Pointer,
    Map,
    Covered,
    Text,
    Step,
    Fault,
    Healed,
}

impl Part {
    fn text(self) -> &'static str {
        match self {
            Part::Run => "what the run itself makes",
            Part::Reply => "a reply",
            Part::Hop => "what a hop comes to",
            Part::Change => "what a change comes to",
            Part::Refusal => "a refusal",
            Part::Outcome => "what an event comes to",
            Part::Records => "the records of pages",
            Part::Walk => "the page at a walk's end",
            Part::Journal => "a journal",
            Part::Taken => "the notice that a copy takes",
            Part::Entries => "the entries of a table",
            Part::Leaves => "the leaves",
            Part::Depth => "a depth",
            Part::Pointer => "a pointer of an array",
            Part::Map => "a map",
            Part::Covered => "what a ward covers",
            Part::Text => "a refusal's number or text",
            Part::Step => "what a step comes to",
            Part::Fault => "a step that is refused, and made then",
            Part::Healed => "what is left after a fault",
        }
    }
}

impl fmt::Display for Part {
    fn fmt<W: fmt::Write>(&self, f: &mut fmt::Formatter<W>) -> fmt::Result {
        write!(f, "{}", self.text())
    }
}

/// Why a step isn't as it should be, or couldn't be made.
#[derive(Clone, Copy, Debug, Error)]
pub enum Difference {
    /// What was compared isn't the same.
    #[error("{0}")]
    Apart(Part),
    /// A growth was refused twice.
    #[error("memory was refused again")]
    Memory(#[from(alloc)] AllocError),
    /// What should be done was refused, by this number.
    #[error("it was refused by number {0}")]
    Refused(u8),
}

/// Passes where it holds, and is else a difference of this part.
pub fn same(holds: bool, part: Part) -> Result<(), Difference>
    ensures { IsOk result ↔ IsTrue holds }
{
    if holds {
        Ok(())
    } else {
        Err(Difference::Apart(part))
    }
}
