//! What holds of the pages of every ward, for the proofs of callers. Each function does nothing.

ghost use Rattle.exh_legal.specs.LegalLaws.{SplitsKeepLegal, MergesKeepLegal, LivePagesSplit, LiveLeftChildrenMerge, WalksNameHomes, RightLinksLeadOn, TargetsLeadOn, LeftChildrenLinkToSiblings, LonePagesAreLegal, PagesAreFew, EntriesAreFew, FittingTablesBeginWards};

/// A split of a legal ward leaves it legal, for the changes with its notice, and leaves the map and
/// each page's number and low bound as they were.
pub fn splits_keep_legal()
    ensures { SplitsKeepLegal }
{}

/// A live page that is shorter than `LIMIT` can be split: the number at its prefix is even, and a
/// page of its right child's low bound is a forwarding page.
pub fn live_pages_split()
    ensures { LivePagesSplit }
{}

/// A merge of a legal ward leaves it legal, for the changes with its notice, and leaves the map and
/// each page's number and low bound as they were.
pub fn merges_keep_legal()
    ensures { MergesKeepLegal }
{}

/// A live page that is a left child of its ward can be merged where its right buddy is live: the
/// number at the parent is odd, and the table's split there names the buddy's page.
pub fn live_left_children_merge()
    ensures { LiveLeftChildrenMerge }
{}

/// The walk of a ward's table for a pseudokey ends at the page that the directory names.
pub fn walks_name_homes()
    ensures { WalksNameHomes }
{}

/// A live page that isn't a pseudokey's home, and isn't beyond it, has a right link that isn't
/// beyond it either.
pub fn right_links_lead_on()
    ensures { RightLinksLeadOn }
{}

/// A forwarding page's target has no greater low bound.
pub fn targets_lead_on()
    ensures { TargetsLeadOn }
{}

/// A live page that is a left child of its ward has a right link to the page of its sibling's low
/// bound, which is the sibling's page where that is live.
pub fn left_children_link_to_siblings()
    ensures { LeftChildrenLinkToSiblings }
{}

/// One empty page of the ward's own prefix is a legal ward.
pub fn lone_pages_are_legal()
    ensures { LonePagesAreLegal }
{}

/// A ward has at most 2^(`LIMIT` - s) pages, s being the bits by which the file is cut.
pub fn pages_are_few()
    ensures { PagesAreFew }
{}

/// A ward's table has fewer than 2^(`LIMIT` - s) entries, s being the bits by which the file is cut.
pub fn entries_are_few()
    ensures { EntriesAreFew }
{}

/// Legal pages with a table that fits them are a legal ward that begins with that table.
pub fn fitting_tables_begin_wards()
    ensures { FittingTablesBeginWards }
{}
