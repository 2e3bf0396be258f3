/// Bytes that a script may have.
pub const SCRIPT_LIMIT: usize = 1_048_576;
