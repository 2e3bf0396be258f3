use exh_prefix::PageNo;

/// A page of a file: its ward, and its number there.
#[derive(Clone, Copy, Debug, PartialEq, Eq)]
pub struct PageAt {
    /// The ward's number.
    pub ward: u8,
    /// The page's number in the ward.
    pub number: PageNo,
}
