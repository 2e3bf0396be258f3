ghost use Rattle.std.specs.Prelude.{◌≡◌, Some};
ghost use Rattle.exh_ward.specs.WardFault.{IsStoreFault};
ghost use Rattle.exh_walk.specs.CallerWalk.{ask_fault_number, fault_at};

use exh_ward::WardFault;
use thiserror::Error;

/// Why a caller's walk was given up. Its call has changed nothing, and splits that were made on the
/// way stay.
#[derive(Clone, Copy, Debug, PartialEq, Eq, Error)]
pub enum AskFault {
    /// The gate said no, or there were as many turns as there may be: number 50.
    #[error("the gate holds the caller back")]
    Held,
    /// A growth was refused: number 10.
    #[error("out of memory")]
    Memory,
    /// A page couldn't be reached: number 11.
    #[error("a page is out of reach")]
    Page,
}

impl AskFault {
    /// The refusal's number among all refusals.
    pub fn number(self) -> u8
        ensures { result ≡ ask_fault_number self }
    {
        match self {
            AskFault::Held => 50,
            AskFault::Memory => 10,
            AskFault::Page => 11,
        }
    }

    // What a refused hop comes to.
    pub(crate) fn of_hop(fault: WardFault) -> AskFault
        requires { IsStoreFault fault }
        ensures { fault_at fault ≡ Some result }
    {
        match fault {
            WardFault::Memory => AskFault::Memory,
            WardFault::Page => AskFault::Page,
            _ => unreachable!(),
        }
    }
}
