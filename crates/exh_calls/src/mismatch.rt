use thiserror::Error;

/// The diaries and the journals aren't settled.
#[derive(Clone, Copy, Debug, Error)]
#[error("the callers' diaries and the wards' journals differ")]
pub struct Mismatch;

impl Mismatch {
    /// The refusal's number among all refusals.
    pub const NUMBER: u8 = 51;
}
