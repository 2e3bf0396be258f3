//! What holds of all entries and images, for the proofs of callers. Each function does nothing.

ghost use Rattle.std.specs.Prelude.{◌≡◌};
ghost use Rattle.exh_notice.specs.Entry.{entry_cmp};
ghost use Rattle.exh_prefix.specs.PrefixLaws.{DecidesEquality};
ghost use Rattle.exh_notice.specs.NoticeLaws.{EntryOrderIsTotal, OneEntry, OneNotice, EntryImagesPass, NoticeImagesPass};

use crate::Entry;

/// The order of entries is total, and agrees with equality.
pub fn order_is_total()
    ensures { EntryOrderIsTotal }
{}

/// Two entries are equal exactly where they are the same.
pub fn equality_is_sameness()
    ensures { DecidesEquality ⟦<Entry as PartialEq>⟧.eq }
{}

/// Entries are ordered by number, then merges before splits, then by right page.
pub fn order_is_by_number()
    ensures { ⟦<Entry as Ord>⟧.cmp ≡ entry_cmp }
{}

/// In every version of the page file, two images of entries or of notices are the same exactly where
/// what they are of is.
pub fn one_value()
    ensures entries { OneEntry }
    ensures notices { OneNotice }
{}

/// In every version of the page file, bytes are the image of an entry or a notice exactly where they
/// pass all tests.
pub fn images_pass()
    ensures entries { EntryImagesPass }
    ensures notices { NoticeImagesPass }
{}
