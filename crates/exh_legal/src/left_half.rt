ghost use Rattle.std.specs.Prelude.{◌≡◌, ℕ, ◌<◌, ◌≤◌, length, Bool, List, Option, IfOk, IfErr, OnOk};
ghost use Rattle.exh_prefix.specs.Prefix.{IsFront};
ghost use Rattle.exh_prefix.specs.declared.prefix.TheConstants.{LIMIT};
ghost use Rattle.exh_page.specs.PageHead.{count_in};
ghost use Rattle.exh_page.specs.declared.page.TheConstants.{CAP_LIMIT};
ghost use Rattle.exh_page.specs.declared.page_head.PageHead.TheVariants.{Live};
ghost use Rattle.exh_legal.specs.LeftHalf.{FitsBeside, IsLeftHalf};
ghost use Rattle.exh_legal.specs.HalvesFault.{NoLeftHalf, NotBeside};

use crate::HalvesFault;
use exh_page::PageHead;
use exh_prefix::{PageNo, Prefix};

/// What a merge has to know of the left half of a parent before it reads a record (Fagin et al.
/// 1979).
#[derive(Clone, Copy)]
pub struct LeftHalf {
    /// The parent of the page's prefix.
    pub parent: Prefix,
    /// How many records the page has.
    pub count: usize,
    /// The page's right link.
    pub right: Option<PageNo>,
}

impl LeftHalf {
    /// What is known of a page that is live and a left child of the prefix `own`, which begins its own,
    /// or of a longer one, else `NotLive` or `NoBuddy`. It takes no memory.
    pub fn of(page: PageHead, own: Prefix) -> Result<LeftHalf, HalvesFault>
        requires { (prefix : List Bool) (link : Option ℕ) (count : ℕ) → page ≡ Live prefix link count → IsFront own prefix }
        ensures ok { IfOk result (IsLeftHalf own page) }
        ensures short { IfOk result (λ half. length half.parent < LIMIT) }
        ensures err { IfErr result (NoLeftHalf own page) }
    {
        match page {
            PageHead::Forward { .. } => Err(HalvesFault::NotLive),
            PageHead::Live {
                prefix,
                right,
                count,
            } => {
                if prefix.len() <= own.len() || prefix.is_right_child() {
                    return Err(HalvesFault::NoBuddy);
                }
                Ok(LeftHalf {
                    parent: prefix.parent().unwrap(),
                    count,
                    right,
                })
            }
        }
    }

    /// Tests the page at the low bound of the parent's right child: `BuddySplit` where it isn't the
    /// live page of that child, `TooMany` with the sum where both halves have more than `cap`
    /// records. It takes no memory.
    pub fn test_buddy(&self, buddy: PageHead, cap: usize) -> Result<(), HalvesFault>
        requires short { length self.now.parent < LIMIT }
        requires few { self.now.count ≤ CAP_LIMIT }
        requires few_others { count_in buddy ≤ CAP_LIMIT }
        ensures ok { OnOk result (FitsBeside cap self.now buddy) }
        ensures err { IfErr result (NotBeside cap self.now buddy) }
    {
        match buddy {
            PageHead::Forward { .. } => Err(HalvesFault::BuddySplit),
            PageHead::Live { prefix, count, .. } => {
                if prefix != self.parent.child(true).unwrap() {
                    return Err(HalvesFault::BuddySplit);
                }
                let sum = self.count + count;
                if sum > cap {
                    return Err(HalvesFault::TooMany(sum));
                }
                Ok(())
            }
        }
    }
}
