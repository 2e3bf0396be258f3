ghost use Rattle.std.specs.Prelude.{◌≡◌, ℕ, List, OnOk, OnErr};
ghost use Rattle.exh_table.specs.Table.{TableMap};
ghost use Rattle.exh_array.specs.KnownCopy.{AreKnown, IsNoted, IsSentUpTo, forgotten};

use std::alloc::AllocError;
use std::collections::BTreeSet;

/// Notes that the sent table at a place tells nothing new, and puts the place behind those that were newly noted, where
/// it is one; answers whether it is. Where memory is refused, an `AllocError`, nothing is noted.
pub(crate) fn note(
    known: &mut BTreeSet<usize>,
    noted: &mut Vec<usize>,
    place: usize,
) -> Result<bool, AllocError>
    ensures known { (sent : List TableMap) (own : TableMap) → AreKnown sent known.old own → IsSentUpTo sent own place → AreKnown sent known.new own }
    ensures noted { OnOk result (IsNoted known.new place) }
    ensures kept { (other : ℕ) → IsNoted known.old other → IsNoted known.new other }
    ensures back { forgotten noted.new.items known.new ≡ forgotten noted.old.items known.old }
    ensures err { OnErr result (known.new ≡ known.old) }
{
    noted.reserve(1)?;
    let is_new = known.insert(place)?;
    if is_new {
        noted.push_reserved(place);
    }
    Ok(is_new)
}

/// Forgets places that were newly noted, the last first. It takes no memory.
pub(crate) fn forget(known: &mut BTreeSet<usize>, mut noted: Vec<usize>)
    ensures { known.new ≡ forgotten noted.items known.old }
{
    while let Some(place) = noted.pop() {
        known.remove(&place);
    }
}
