use exh_calls::Reply;
use exh_prefix::PageNo;

/// What one hop of a request comes to. Only `Done` changes a ward.
#[derive(Clone, Copy, Debug, PartialEq, Eq)]
pub enum Hop {
    /// The call is answered, as the map of all pages answers it.
    Done(Reply),
    /// The request goes on at the ward's page of this number.
    Moved(PageNo),
    /// The call puts a new key, and its page is full: that is to be split first.
    MustSplit,
    /// There is no such page, or it is for greater pseudokeys, so it can't lead to the key.
    Stray,
}
