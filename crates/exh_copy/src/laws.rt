//! What holds of all copies that are looked at, for the proofs of callers. Each function does nothing.

ghost use Rattle.exh_copy.specs.CopyLaws.{CopiesNeverGoBack, LearningNeverGoesBack, CopiesAreTablesOfTheirSets, LooksAreWalksOfCopies};

/// Who holds more of the published list is no lower in the order of tables.
pub fn copies_never_go_back()
    ensures { CopiesNeverGoBack }
{}

/// Who learns what was handed on of the same list holds no less than it did, and its table is no lower.
pub fn learning_never_goes_back()
    ensures { LearningNeverGoesBack }
{}

/// A copy's table is that of the set of all that it was told.
pub fn copies_are_tables_of_their_sets()
    ensures { CopiesAreTablesOfTheirSets }
{}

/// A look names the page at which a copy in a world that was told the same would begin a request.
pub fn looks_are_walks_of_copies()
    ensures { LooksAreWalksOfCopies }
{}
