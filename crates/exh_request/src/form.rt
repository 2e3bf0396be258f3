//! How keys and values are written.

/// How keys and values are read and printed.
#[derive(Clone, Copy)]
pub struct Form {
    /// In hexadecimal, two digits a byte, by `--hex`.
    pub is_hex: bool,
    /// Without the newline at the end, by `--raw`: it is printed behind no value, and kept of one from standard input.
    pub is_raw: bool,
}
