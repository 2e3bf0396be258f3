//! What holds of all tables, walks and leaves, for the proofs of callers. Each function does nothing.

ghost use Rattle.exh_table.specs.TableLaws.{OwnEntries, OneNoticeMore, UnionIsJoin, MembersDecide, PutBackUndoes, WalksArePaths, LeavesPart, WalksNameLeaves, OneDirectory, ChangesKeepNames};

/// A table's own entries, read as a set, give that table.
pub fn own_entries_give_the_table()
    ensures { OwnEntries }
{}

/// A set with one notice more has the table that `take` leaves.
pub fn one_notice_more_is_taken()
    ensures { OneNoticeMore }
{}

/// The union of two sets has the join of their tables.
pub fn union_is_join()
    ensures { UnionIsJoin }
{}

/// The members of a set decide its table, in whatever order and however often they stand there.
pub fn members_decide()
    ensures { MembersDecide }
{}

/// To put back what `take` answered gives the table before.
pub fn put_back_undoes()
    ensures { PutBackUndoes }
{}

/// A walk passes splits alone, stops where there is none, and names the right page of the last
/// split that it passed over the bit 1.
pub fn walks_are_paths()
    ensures { WalksArePaths }
{}

/// The leaves of a table part the pseudokeys of each ward, and the walk for a pseudokey ends at the
/// leaf that begins it.
pub fn leaves_part()
    ensures { LeavesPart }
{}

/// Over all wards, the walk for a pseudokey ends at the one leaf that begins it.
pub fn walks_name_leaves()
    ensures { WalksNameLeaves }
{}

/// A table has one directory (Fagin et al. 1979).
pub fn one_directory()
    ensures { OneDirectory }
{}

/// Where one leaf of a ward begins a pseudokey, one does after a split or a merge.
pub fn changes_keep_names()
    ensures { ChangesKeepNames }
{}
