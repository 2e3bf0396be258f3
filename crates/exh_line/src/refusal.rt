use exh_text::LineFault;
use exh_walk::StepFault;
use thiserror::Error;

/// Why a line, a script or a run of it is refused.
#[derive(Clone, Copy, Debug, Error)]
pub enum Refusal {
    /// The line can't be read, or stands at the wrong place.
    #[error(transparent)]
    Line(LineFault),
    /// The step that the line asks for is refused.
    #[error(transparent)]
    Step(StepFault),
    /// The reader failed.
    #[error("the reader failed")]
    Read,
    /// The script is longer than a script may be.
    #[error("the script is too long")]
    TooLong,
    /// The script's `file` line isn't that of the opened file.
    #[error("the file line isn't that of the opened file")]
    OtherFile,
}

impl Refusal {
    ghost use Rattle.std.specs.Prelude.{◌≡◌};
    ghost use Rattle.exh_line.specs.LineRefusal.{refusal_number};

    /// The number by which the refusal is printed.
    pub fn number(self) -> u32
        ensures { result ≡ refusal_number self }
    {
        match self {
            Refusal::Line(fault) => fault.number(),
            Refusal::Step(fault) => u32::from(fault.number()),
            Refusal::Read => 41,
            Refusal::TooLong => 62,
            Refusal::OtherFile => 63,
        }
    }
}

impl From<LineFault> for Refusal {
    ghost use Rattle.std.specs.Prelude.{◌≡◌};
    ghost use Rattle.exh_line.specs.declared.refusal.Refusal.TheVariants.{Line};

    ghost from_gives = { λ fault refusal. refusal ≡ Line fault };

    fn from(fault: LineFault) -> Refusal {
        Refusal::Line(fault)
    }
}

impl From<StepFault> for Refusal {
    ghost use Rattle.std.specs.Prelude.{◌≡◌};
    ghost use Rattle.exh_line.specs.declared.refusal.Refusal.TheVariants.{Step};

    ghost from_gives = { λ fault refusal. refusal ≡ Step fault };

    fn from(fault: StepFault) -> Refusal {
        Refusal::Step(fault)
    }
}
