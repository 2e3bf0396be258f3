use thiserror::Error;

/// Why a page isn't halved, or two pages aren't put together.
#[derive(Clone, Copy, Debug, Error)]
pub enum HalvesFault {
    /// The page sends callers on.
    #[error("the page isn't live")]
    NotLive,
    /// The page has fewer records than a page may.
    #[error("the page isn't full")]
    NotFull,
    /// The page's prefix has no children.
    #[error("the page's prefix has the greatest length")]
    AtLimit,
    /// The page's prefix is the shortest there is, or ends in 1.
    #[error("the page is no left half")]
    NoBuddy,
    /// The other page isn't the live one of the right buddy's prefix.
    #[error("the page's right buddy was split")]
    BuddySplit,
    /// Both pages have this many records together, more than a page may.
    #[error("both pages have {0} records together")]
    TooMany(usize),
}
