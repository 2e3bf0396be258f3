use thiserror::Error;

/// A key that isn't 1 to 64 bytes long, or a value of more than 128.
#[derive(Clone, Copy, Debug, Error)]
#[error("a key has 1 to 64 bytes, and a value at most 128")]
pub struct SizeFault;

impl SizeFault {
    /// The refusal's number among all refusals.
    pub const NUMBER: u8 = 12;
}
