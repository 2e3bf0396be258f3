ghost use Rattle.std.specs.Prelude.{◌≡◌, ◌<◌, ◌++◌, ◌∷◌, [], true, length, IsSome, Some};
ghost use Rattle.exh_prefix.specs.Prefix.{low_of};
ghost use Rattle.exh_prefix.specs.declared.prefix.TheConstants.{LIMIT};
ghost use Rattle.exh_cells.specs.WalkImage.{IsCell};
ghost use Rattle.exh_placing.specs.Making.{AreSlotsFor, HasRightPlaces, IsSlotFor, place_in};

use crate::place_index::{PlaceIndex, place_of};
use exh_cells::{Cell, SLOTS, Slot};
use exh_prefix::Prefix;
use exh_table::Table;

// A slot without an entry.
const NONE: Slot = Slot { number: 0, page: 0 };

// The cell of the ward's page of a low bound, which has this number in the ward.
pub(crate) fn cell_of(places: &PlaceIndex, table: &Table, low: u64, number: u32) -> Cell
    requires { HasRightPlaces places.now.entries table.now }
    ensures number { result.number ≡ number }
    ensures cell { IsCell result }
    ensures slots { AreSlotsFor places.now.entries table.now low result.slots }
{
    let mut slots = [NONE; SLOTS];
    for len in 0..SLOTS {
        slots[len] = slot_of(places, table, low, len as u8);
    }
    Cell { number, slots }
}

// The slot of a length, of the ward's page of a low bound.
fn slot_of(places: &PlaceIndex, table: &Table, low: u64, len: u8) -> Slot
    requires len { len < LIMIT }
    requires rights { HasRightPlaces places.now.entries table.now }
    ensures { IsSlotFor places.now.entries table.now low len result }
{
    let Some(prefix) = Prefix::new(len, low) else {
        return NONE;
    };
    match table.get(prefix) {
        None => NONE,
        Some(entry) => Slot {
            number: entry.number,
            page: right_place(places, prefix),
        },
    }
}

// The place of the page of the right child's low bound, which is there.
fn right_place(places: &PlaceIndex, prefix: Prefix) -> u32
    requires short { length prefix < LIMIT }
    requires there { IsSome (place_in places.now.entries (low_of (prefix ++ true ∷ []))) }
    ensures { place_in places.now.entries (low_of (prefix ++ true ∷ [])) ≡ Some result }
{
    let right = prefix.child(true).unwrap();
    place_of(places, right.low()).unwrap()
}
