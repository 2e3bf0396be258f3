//! The settings of a storm.

/// The most callers of a storm.
pub const CALLERS_LIMIT: u8 = 16;

/// The most calls of one caller of a storm.
pub const CALLS_LIMIT: u32 = 10_000;

/// The most copies of the directory in a storm.
pub const COPIES_LIMIT: u8 = 8;

/// The settings of a storm: 1 to 16 callers; 1 to 10,000 calls of each; at most `cap` records a page, 1
/// to 16; 2^`ward_bits` wards, by 0 to 4 leading bits of pseudokeys; and 1 to 8 copies of the directory.
#[derive(Clone, Copy)]
pub struct StormConfig {
    pub callers: u8,
    pub calls: u32,
    pub cap: usize,
    pub ward_bits: u8,
    pub copies: u8,
}
