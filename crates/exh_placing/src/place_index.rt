ghost use Rattle.std.specs.Prelude.{◌≡◌, ◌<◌, ◌^◌, length, IfOk};
ghost use Rattle.exh_cells.specs.CellLaws.{AreApart};
ghost use Rattle.exh_placing.specs.Making.{ArePlaces, place_in};

use std::alloc::{AllocError, Global};
use std::collections::BTreeMap;

/// The places of pages by their low bounds.
pub(crate) type PlaceIndex = BTreeMap<u64, u32>;

// The places of pages that have these low bounds, no two the same. It takes memory for an entry a page: an `AllocError`
// where that is refused.
pub(crate) fn index_of_lows(alloc: Global, lows: &[u64]) -> Result<PlaceIndex, AllocError>
    requires few { length lows.now < 2 ^ 32 }
    requires apart { AreApart lows.now }
    ensures { IfOk result (λ places. ArePlaces places.entries lows.now) }
{
    let mut places = BTreeMap::new(alloc);
    for place in 0..lows.len() {
        places.insert(lows[place], place as u32)?;
    }
    Ok(places)
}

// The place of the page of a low bound, if there is one.
pub(crate) fn place_of(places: &PlaceIndex, low: u64) -> Option<u32>
    ensures { result ≡ place_in places.now.entries low }
{
    places.get(&low).copied()
}
