ghost use Rattle.std.specs.Prelude.{◌≡◌};
ghost use Rattle.exh_run.specs.declared.wrong_input.WrongInput.TheVariants as wrong;

use std::alloc::{AllocError, AllocFailed};
use std::io;
use thiserror::Error;

/// Why standard input gives no keys, or no value.
#[derive(Clone, Copy, Debug, Error)]
pub enum WrongInput {
    /// The line of this number, from 1 on, is no key.
    #[error("line {0} is no key: a word of 1 to 64 bytes, as `pairs` prints it, or with --hex hexadecimal digits")]
    Line(u64),
    /// It has so many bytes, more than a value.
    #[error("a value has at most 128 bytes, and this one has {0} (refused 12)")]
    LongValue(usize),
    /// It has more bytes than are read, and a value has fewer.
    #[error("a value has at most 128 bytes, and this one has more than 1048576 (refused 12)")]
    EndlessValue,
    /// A value that is asked for in digits isn't.
    #[error("the value isn't hexadecimal digits, two a byte")]
    NoDigits,
    /// It is longer than a text may be.
    #[error("it has more than 1048576 bytes, or has no end (refused 62)")]
    TooLong,
    /// The system doesn't give it.
    #[error("{0} (refused 41)")]
    Unread(io::Error),
    /// A growth was refused.
    #[error("out of memory (refused 10)")]
    Memory,
}

impl From<AllocError> for WrongInput {
    ghost from_gives = { λ _ fault. fault ≡ wrong.Memory };

    fn from(_error: AllocError) -> WrongInput {
        WrongInput::Memory
    }
}

impl<T: Drop> From<AllocFailed<T>> for WrongInput {
    ghost from_gives = { λ _ fault. fault ≡ wrong.Memory };

    fn from(_error: AllocFailed<T>) -> WrongInput {
        WrongInput::Memory
    }
}
