ghost use Rattle.std.specs.Prelude.{ℕ, List};
ghost use Rattle.exh_import.specs.declared.rejection.Rejection.{Rejection as Why};

use exh_pair_text::WrongLine;
use thiserror::Error;

/// Why a line was not put. Its text is a sentence without a full stop.
#[derive(Clone, Copy, Debug, PartialEq, Eq, Error)]
pub enum Rejection {
    /// The line is no pair.
    #[error("{0}")]
    Wrong(WrongLine),
    /// The line is the opening or the end of an export, and stands amid a text, or in one that has no opening.
    #[error("it begins or ends an export, and doesn't stand there")]
    Misplaced,
    /// As many keys as a page holds share the first bits of this one's hash.
    #[error("its key has no room")]
    Full,
}

/// Who is told of the lines that aren't put.
pub trait Rejects {
    /// The listener was told that the line of this number was rejected, and why.
    ghost told: { Self → ℕ → Why → List ℕ → Self → Type 0 };

    /// The line of this number, from 1 on, is rejected.
    fn reject(&mut self, number: u64, cause: Rejection, line: &[u8])
        ensures { told self.old number cause line.now self.new };
}
