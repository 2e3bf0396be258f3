//! When a put is done.

/// Where a key is given its value.
#[derive(Clone, Copy)]
pub enum PutWhen {
    /// Whether it has one or not.
    Always,
    /// Only where it has none, by `--new`.
    New,
    /// Only where it has one, by `--replace`.
    There,
}
