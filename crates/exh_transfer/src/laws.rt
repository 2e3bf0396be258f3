//! What holds of all exports and imports. Each function changes nothing.
ghost use Rattle.exh_transfer.specs.Imports.{gives_pair, saves_pairs};
ghost use Rattle.exh_transfer.specs.Laws.{ExportsAreImported, ExportsAreWhole, ExportsGiveTheirMap, ExportsHaveLines, HoldsOneMap, PutsLeaveTheMachinesMap};

use exh_import::{ImportedStore, Rejects};
use exh_pair_text::{pairs_are_one_line, pairs_are_read};

/// An import of what an export prints, in its format and in hexadecimal as it is, puts just the pairs that were exported, in
/// their order, rejects none of its lines, and isn't cut off.
pub fn exports_are_imported<S: ImportedStore, L: Rejects>()
    ensures lines { ExportsHaveLines }
    ensures pairs { ExportsAreImported }
    ensures whole { ExportsAreWhole S.gives S.saves S.rests L.told }
{
    pairs_are_read();
    pairs_are_one_line();
}

/// It gives a store without pairs the map of the pairs, where each key stands once and none finds no room, and nobody else
/// changes the store meanwhile.
pub fn exports_give_their_map<S: ImportedStore, L: Rejects>()
    ensures { ExportsGiveTheirMap S.gives S.saves S.rests L.told }
{
    pairs_are_read();
    pairs_are_one_line();
}

/// Pairs that are put into a store, in order, leave the map that the map machine makes of its own, where nobody else changes it
/// meanwhile; the program's store is one of which that holds.
pub fn imports_leave_their_map<S: ImportedStore>()
    ensures any { PutsLeaveTheMachinesMap S.gives S.saves S.rests }
    ensures own { HoldsOneMap gives_pair saves_pairs (λ pairs. pairs.store) }
{}
