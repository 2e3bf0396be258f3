//! What is saved.
ghost use Rattle.std.specs.Prelude.{ℕ, IfErr, List, OnOk};
ghost use Rattle.std.specs.Io.KnownBytes.{Appends};
ghost use Rattle.exh_saving.specs.declared.source.SourceFault.{SourceFault};

use std::io::Write;
use thiserror::Error;

/// What is to be written.
pub trait Source: Drop {
    /// What writing leaves of it.
    ghost leaves: { Self → Self → Type 0 };

    /// Why writing gives not all, of what is saved as it was, and as writing left it.
    ghost fails: { Self → Self → SourceFault → Type 0 };

    /// The bytes that writing gives.
    ghost bytes: { Self → List ℕ };

    /// Writes all of it to a writer, and gives it back, after a fault too.
    ///
    /// `Writer`: the writer failed or took no bytes. `Memory`: a growth was refused. `Source`: what is to be written is
    /// out of reach.
    fn write_to<W: Write>(self, writer: &mut W) -> (Result<(), SourceFault>, Self)
        ensures leaves { leaves self result.1 }
        ensures fails { IfErr result.0 (fails self result.1) }
        ensures written { OnOk result.0 (Appends (W.contents writer.old) (W.contents writer.new) (bytes self)) };
}

/// Who is told of bytes that are written.
pub trait Watch {
    fn wrote(&self, bytes: &[u8]);
}

/// Why not all was written.
#[derive(Clone, Copy, Debug, Error)]
pub enum SourceFault {
    #[error("the writer failed")]
    Writer,
    #[error("out of memory")]
    Memory,
    #[error("a page is out of reach")]
    Source,
}
