//! What cells and tables say of each other: each function changes nothing, and its contract is a law.
ghost use Rattle.exh_cells.specs.CellLaws.{CellsTellTables, EntriesHaveSlots, MatchedTablesAreTold, SlotsAreEntries, TablesTellCells};

/// Of cells that fit pages, and their tables: what a table has at a prefix is what the slot tells that is of the prefix's
/// length and of the page that has its low bound; and each entry is that of such a slot. It takes no memory.
pub fn slots_are_entries()
    ensures slots { SlotsAreEntries }
    ensures entries { EntriesHaveSlots }
{}

/// Cells tell of one list of tables, and tables are told by one list of cells. It takes no memory.
pub fn cells_and_tables_tell()
    ensures tables { CellsTellTables }
    ensures cells { TablesTellCells }
{}

/// The other way round: tables that have at the prefix of each slot what it tells, and no entry elsewhere, are those that
/// cells that fit pages tell of. It takes no memory.
pub fn matched_tables_are_told()
    ensures { MatchedTablesAreTold }
{}
