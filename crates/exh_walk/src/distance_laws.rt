//! What changes of a ward do to distances, and how far the pages are that walks name. Each function does nothing.

ghost use Rattle.exh_walk.specs.DistanceLaws.{ChangesAddOne, StepsAddChanges, MovesAreBounded, WholeTablesNameHomes, WholeCopiesNameHomes, LateTablesAreNear};

use crate::laws::{gets_go_home, moves_come_nearer};
use exh_calls::histories_go_on;
use exh_keyer::Keyer;
use exh_legal::{merges_keep_legal, right_links_lead_on, splits_keep_legal, walks_name_homes};
use exh_ward::answers_keep_legal;

/// A split or a merge raises the distance from any page by at most one, whatever the pseudokey.
pub fn changes_add_one()
    ensures { ChangesAddOne }
{}

/// Whatever happens to a ward in one step, the distance from any page rises by at most one, and by
/// none but at a split or a merge.
pub fn steps_add_changes<K: Keyer>()
    ensures { StepsAddChanges K.pseudokey_of }
{}

/// Over every list of hops, splits and merges of a ward, the moves of a request and the distance that
/// it is left with are together at most its distance at first and the changes since, wherever it
/// stood and whatever others did.
pub fn moves_are_bounded<K: Keyer>()
    ensures { MovesAreBounded K.pseudokey_of }
{
    moves_come_nearer();
    right_links_lead_on();
    splits_keep_legal();
    merges_keep_legal();
    answers_keep_legal();
    histories_go_on();
}

/// From the page that a walk of a ward's table names there is no way to go: the distance is 0. So it
/// is for any table that is, in the ward, that of the start table and all changes since.
pub fn whole_tables_name_homes()
    ensures own { WholeTablesNameHomes }
    ensures copies { WholeCopiesNameHomes }
{
    walks_name_homes();
}

/// Of a table that is a ward's start table and the first m of its n changes since, a walk names a
/// page whose distance is at most n - m.
pub fn late_tables_are_near()
    ensures { LateTablesAreNear }
{
    gets_go_home();
}
