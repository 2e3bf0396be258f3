//! The stories.

use crate::storms::Storms;
use exh_fixtures::Named;

/// A story.
#[derive(Clone, Copy)]
pub(crate) enum Story {
    /// A caller is held between its look and its first hop.
    HeldLook,
    /// A caller waits in one ward, another one is answered in another.
    Locks,
    /// The same over pages that stand as images.
    LocksOverImages,
    /// A keeper merges pages, a caller fills them again.
    Refill,
    /// Two callers count by swaps.
    Counter,
    /// Each of many pages is called and worn down.
    ManyPages,
    /// Of storms.
    Storms(Storms),
}

/// All of them, in the order in which they are played.
pub(crate) const STORIES: [Story; 14] = [
    Story::HeldLook,
    Story::Locks,
    Story::LocksOverImages,
    Story::Refill,
    Story::Counter,
    Story::ManyPages,
    Story::Storms(Storms::HeldCaller),
    Story::Storms(Storms::Company),
    Story::Storms(Storms::Open),
    Story::Storms(Storms::Closed),
    Story::Storms(Storms::Unmade),
    Story::Storms(Storms::Small),
    Story::Storms(Storms::Told),
    Story::Storms(Storms::Looks),
];

impl Named for Story {
    fn name(self) -> &'static str {
        match self {
            Story::HeldLook => "held-look",
            Story::Locks => "locks",
            Story::LocksOverImages => "locks-over-images",
            Story::Refill => "refill",
            Story::Counter => "counter",
            Story::ManyPages => "many-pages",
            Story::Storms(Storms::HeldCaller) => "held-caller",
            Story::Storms(Storms::Company) => "company",
            Story::Storms(Storms::Open) => "open",
            Story::Storms(Storms::Closed) => "closed",
            Story::Storms(Storms::Unmade) => "unmade",
            Story::Storms(Storms::Small) => "small",
            Story::Storms(Storms::Told) => "told",
            Story::Storms(Storms::Looks) => "looks",
        }
    }
}
