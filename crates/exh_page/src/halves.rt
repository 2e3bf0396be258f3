//! What a split makes of a page, and a merge of two (Fagin et al. 1979).
use crate::{Page, Records};
use exh_prefix::{PageNo, Prefix};
use std::alloc::AllocError;

impl Page {
    ghost use Rattle.std.specs.Prelude.{◌≡◌, ◌++◌, IfOk};
    ghost use Rattle.exh_page.specs.Records.{IsRising};
    ghost use Rattle.exh_page.specs.Page.{records_of, share_of, IsDivisible, IsLive};
    ghost use Rattle.exh_page.specs.Halves.{half_of, left_half, right_half, sent_to, union};

    /// The records that a split gives the child of a live page's prefix by this bit, in their order;
    /// no key is hashed (Fagin et al. 1979). The prefix is shorter than `LIMIT`. It takes memory for
    /// the records: an `AllocError` where that is refused.
    pub fn divide(&self, bit: bool) -> Result<Records, AllocError>
        requires { IsDivisible self.now }
        ensures { IfOk result (λ records. records ≡ share_of bit self.now) }
    {
        match self {
            Page::Live {
                prefix,
                records,
                ..
            } => match prefix.child(bit) {
                Some(child) => records.begun_by(child),
                None => unreachable!(),
            },
            Page::Forward { .. } => unreachable!(),
        }
    }

    /// The records that a merge gives a page: its own, and those of its right buddy, which stand
    /// after them all. It takes memory where the page has no room for the buddy's: an `AllocError`
    /// where that is refused.
    pub fn absorb(self, buddy: &Page) -> Result<Records, AllocError>
        requires live { IsLive self }
        requires buddy_live { IsLive buddy.now }
        requires rising { IsRising (records_of self ++ records_of buddy.now) }
        ensures { IfOk result (λ records. records ≡ records_of self ++ records_of buddy.now) }
    {
        match (self, buddy) {
            (
                Page::Live { records, .. },
                Page::Live {
                    records: others,
                    ..
                },
            ) => { records.followed_by(others) }
            _ => unreachable!(),
        }
    }

    /// The left half of a live page that is split, whose prefix is shorter than `LIMIT`: it links to the
    /// page of number `right`. No key is hashed. It takes memory for the records: an `AllocError` where
    /// that is refused.
    pub fn left_half(&self, right: PageNo) -> Result<Page, AllocError>
        requires { IsDivisible self.now }
        ensures { IfOk result (λ page. page ≡ left_half right self.now) }
    {
        self.half(false, Some(right))
    }

    /// The right half of such a page, which keeps its right link. No key is hashed. It takes memory for
    /// the records: an `AllocError` where that is refused.
    pub fn right_half(&self) -> Result<Page, AllocError>
        requires { IsDivisible self.now }
        ensures { IfOk result (λ page. page ≡ right_half self.now) }
    {
        match self {
            Page::Live { right, .. } => self.half(true, *right),
            Page::Forward { .. } => unreachable!(),
        }
    }

    /// The page of a parent that a merge makes of its left half, this page, and of its right one, whose
    /// records stand after all of this page's. It takes memory for the records of both: an `AllocError`
    /// where that is refused.
    pub fn union(&self, parent: Prefix, other: &Page) -> Result<Page, AllocError>
        requires live { IsLive self.now }
        requires other_live { IsLive other.now }
        requires rising { IsRising (records_of self.now ++ records_of other.now) }
        ensures { IfOk result (λ page. page ≡ union parent self.now other.now) }
    {
        match other {
            Page::Live { right, records, .. } => Ok(Page::Live {
                prefix: parent,
                right: *right,
                records: self.try_clone_with_room(records.len())?.absorb(other)?,
            }),
            Page::Forward { .. } => unreachable!(),
        }
    }

    /// What is left of a page that was merged into the page of this number: it sends callers on to that.
    pub fn sent_to(&self, number: PageNo) -> Page
        ensures { result ≡ sent_to number self.now }
    {
        Page::Forward {
            low: self.low(),
            target: number,
        }
    }

    // The page of the child of a live page's prefix by this bit, with a right link.
    fn half(&self, bit: bool, right: Option<PageNo>) -> Result<Page, AllocError>
        requires { IsDivisible self.now }
        ensures { IfOk result (λ page. page ≡ half_of bit right self.now) }
    {
        match self {
            Page::Live { prefix, .. } => match prefix.child(bit) {
                Some(child) => Ok(Page::Live {
                    prefix: child,
                    right,
                    records: self.divide(bit)?,
                }),
                None => unreachable!(),
            },
            Page::Forward { .. } => unreachable!(),
        }
    }
}
