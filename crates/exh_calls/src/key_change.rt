use exh_page::Value;

/// What becomes of a call's key.
#[derive(Clone, Copy)]
pub enum KeyChange<'a> {
    /// It stays as it is.
    Keep,
    /// It has this value, new or in place of another.
    Set(&'a Value),
    /// It is taken out, with its value.
    Remove,
}
