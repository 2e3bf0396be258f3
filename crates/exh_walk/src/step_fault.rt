ghost use Rattle.std.specs.Prelude.{◌≡◌};
ghost use Rattle.exh_ward.specs.declared.ward_fault.WardFault.TheVariants.{Memory};
ghost use Rattle.exh_walk.specs.StepFault.{step_fault_number};
ghost use Rattle.exh_walk.specs.declared.step_fault.StepFault.TheVariants.{Ward as OfWard};

use exh_ward::WardFault;
use std::alloc::AllocError;
use thiserror::Error;

/// Why a world refused an event. It is as it was before the event, but that a ward
/// whose page was out of reach has counted that.
#[derive(Clone, Copy, Debug, PartialEq, Eq, Error)]
pub enum StepFault {
    /// There is no copy of this number: number 20.
    #[error("there is no copy of this number")]
    NoCopy,
    /// No request of this name is in flight: number 21.
    #[error("no request of this name is in flight")]
    NoRequest,
    /// No notice of this ward and index was issued: number 22.
    #[error("no notice of this ward and index was issued")]
    NoNotice,
    /// No table of this number was sent: number 23.
    #[error("no table of this number was sent")]
    NoTable,
    /// There is no ward of this number: number 24.
    #[error("there is no ward of this number")]
    NoWard,
    /// A request of this name is in flight: number 25.
    #[error("a request of this name is in flight")]
    NameTaken,
    /// The ward refused the step, or a growth or its page store was refused: the ward's number.
    #[error("{0}")]
    Ward(WardFault),
}

impl StepFault {
    /// The refusal's number among all refusals.
    pub fn number(self) -> u8
        ensures { result ≡ step_fault_number self }
    {
        match self {
            StepFault::NoCopy => 20,
            StepFault::NoRequest => 21,
            StepFault::NoNotice => 22,
            StepFault::NoTable => 23,
            StepFault::NoWard => 24,
            StepFault::NameTaken => 25,
            StepFault::Ward(fault) => fault.number(),
        }
    }
}

impl From<WardFault> for StepFault {
    ghost from_gives = { λ error fault. fault ≡ OfWard error };

    fn from(fault: WardFault) -> StepFault {
        StepFault::Ward(fault)
    }
}

impl From<AllocError> for StepFault {
    ghost from_gives = { λ _ fault. fault ≡ OfWard Memory };

    fn from(_error: AllocError) -> StepFault {
        StepFault::Ward(WardFault::Memory)
    }
}
