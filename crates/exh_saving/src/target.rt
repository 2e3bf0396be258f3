use crate::Seen;

/// Where is to be saved.
#[derive(Clone, Copy)]
pub struct Target<'t, O: Drop> {
    pub path: &'t str,
    /// How a file begins that may be replaced, an empty one aside.
    pub magic: [u8; 8],
    /// The file that was opened, where one was.
    pub seen: Option<&'t Seen<O>>,
}
