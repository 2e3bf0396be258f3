use thiserror::Error;

/// Why a run over the program's stores stopped, in which each page is at hand: a beginning of its text is out.
#[derive(Clone, Copy, Debug, PartialEq, Eq, Error)]
pub enum RunFault {
    /// The writer failed (refusal 42).
    #[error("the writer failed")]
    Write,
    /// A growth was refused (refusal 10).
    #[error("out of memory")]
    Memory,
}
