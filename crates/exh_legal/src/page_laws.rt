//! What holds of all pages, for the proofs of callers. Each function does nothing.

ghost use Rattle.exh_page.specs.PageLaws.{ChildrenShareAll, SharesAreRecords, BuddiesUnite, PagesHaveLimits};

/// The children of a prefix share out its records: each comes to one of them, in order (Fagin et
/// al. 1979).
pub fn children_share_all()
    ensures { ChildrenShareAll }
{}

/// What a child gets of well-formed records is well formed under the child.
pub fn shares_are_records()
    ensures { SharesAreRecords }
{}

/// The records of two buddies, put together, are well formed under their parent (Fagin et al. 1979).
pub fn buddies_unite()
    ensures { BuddiesUnite }
{}

/// A page of 16 records is well formed where they are, and none of 17; no right link is the greatest
/// number of 32 bits.
pub fn pages_have_limits()
    ensures { PagesHaveLimits }
{}
