/// A call of a store of pages that answers a `Result`.
#[derive(Clone, Copy, Debug, PartialEq, Eq)]
pub enum PagesCall {
    /// `Pages::get`.
    Get,
    /// `Pages::head`.
    Head,
    /// `Pages::block`.
    Block,
    /// `Pages::fetch`.
    Fetch,
    /// `Pages::reach`.
    Reach,
    /// `Pages::put_at`.
    Put,
    /// `Pages::remove_at`.
    Remove,
    /// `Pages::set`.
    Set,
    /// `Pages::set_two`.
    SetTwo,
    /// `Pages::grow_and_set`.
    GrowAndSet,
    /// `Pages::split_into`.
    SplitInto,
    /// `Pages::split_off`.
    SplitOff,
    /// `Pages::merge`.
    Merge,
}
