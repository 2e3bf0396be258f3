ghost use Rattle.std.specs.Prelude.{◌≡◌};
ghost use Rattle.exh_live.specs.Closing.{close_fault_number};
ghost use Rattle.exh_walk.specs.CallerWalk.{ask_fault_number};
ghost use Rattle.exh_ward.specs.WardFault.{IsStoreFault, ward_fault_number};
ghost use Rattle.exh_live.specs.StormFault.{storm_fault_number};
ghost use Rattle.exh_live.specs.declared.fault.StormFault.TheVariants.{Memory, Mismatch as NotSettled, Seats};

use crate::{CloseFault, NoSeat};
use exh_calls::Mismatch;
use exh_walk::AskFault;
use exh_ward::WardFault;
use std::alloc::{AllocError, AllocFailed};
use thiserror::Error;

/// Why a storm isn't settled.
#[derive(Clone, Copy, Debug, Error)]
pub enum StormFault {
    /// A growth was refused, or a thread can't be made: number 10.
    #[error("out of memory")]
    Memory,
    /// A page couldn't be reached: number 11.
    #[error("a page is out of reach")]
    Page,
    /// The gate said no, or a call took as many turns as it may: number 50.
    #[error("the gate holds a worker back")]
    Held,
    /// Diaries and journals don't say the same: number 51.
    #[error("diaries and journals don't say the same")]
    Mismatch,
    /// A caller has no seat, or no place at its copy of the directory: number 52.
    #[error("a caller has no place")]
    Seats,
}

impl StormFault {
    /// The refusal's number among all refusals.
    pub fn number(self) -> u8
        ensures { result ≡ storm_fault_number self }
    {
        match self {
            StormFault::Memory => 10,
            StormFault::Page => 11,
            StormFault::Held => 50,
            StormFault::Mismatch => 51,
            StormFault::Seats => 52,
        }
    }

    // What a keeper's refused round comes to.
    pub(crate) fn of_round(fault: WardFault) -> StormFault
        requires { IsStoreFault fault }
        ensures { storm_fault_number result ≡ ward_fault_number fault }
    {
        match fault {
            WardFault::Memory => StormFault::Memory,
            WardFault::Page => StormFault::Page,
            _ => unreachable!(),
        }
    }
}

impl From<AllocError> for StormFault {
    ghost from_gives = { λ _ fault. fault ≡ Memory };

    fn from(_: AllocError) -> StormFault {
        StormFault::Memory
    }
}

impl<T: Drop> From<AllocFailed<T>> for StormFault {
    ghost from_gives = { λ _ fault. fault ≡ Memory };

    fn from(_: AllocFailed<T>) -> StormFault {
        StormFault::Memory
    }
}

impl From<AskFault> for StormFault {
    ghost from_gives = { λ asked fault. storm_fault_number fault ≡ ask_fault_number asked };

    fn from(fault: AskFault) -> StormFault {
        match fault {
            AskFault::Held => StormFault::Held,
            AskFault::Memory => StormFault::Memory,
            AskFault::Page => StormFault::Page,
        }
    }
}

impl From<NoSeat> for StormFault {
    ghost from_gives = { λ _ fault. fault ≡ Seats };

    fn from(_: NoSeat) -> StormFault {
        StormFault::Seats
    }
}

impl From<CloseFault> for StormFault {
    ghost from_gives = { λ closing fault. storm_fault_number fault ≡ close_fault_number closing };

    fn from(fault: CloseFault) -> StormFault {
        match fault {
            CloseFault::Seats => StormFault::Seats,
            CloseFault::Memory => StormFault::Memory,
        }
    }
}

impl From<Mismatch> for StormFault {
    ghost from_gives = { λ _ fault. fault ≡ NotSettled };

    fn from(_: Mismatch) -> StormFault {
        StormFault::Mismatch
    }
}
