ghost use Rattle.std.specs.Prelude.{◌≡◌};
ghost use Rattle.exh_report.specs.declared.report_fault.ReportFault.TheVariants.{Memory, Write};

use exh_stream::WriteFault;
use std::alloc::AllocError;
use thiserror::Error;

/// Why a command stopped, a beginning of its text being out.
#[derive(Clone, Copy, Debug, Error)]
pub enum ReportFault {
    /// The writer failed (refusal 42).
    #[error("the writer failed")]
    Write,
    /// A growth was refused (refusal 10).
    #[error("out of memory")]
    Memory,
}

impl From<WriteFault> for ReportFault {
    ghost from_gives = { λ _ fault. fault ≡ Write };

    fn from(_fault: WriteFault) -> ReportFault {
        ReportFault::Write
    }
}

impl From<AllocError> for ReportFault {
    ghost from_gives = { λ _ fault. fault ≡ Memory };

    fn from(_error: AllocError) -> ReportFault {
        ReportFault::Memory
    }
}
