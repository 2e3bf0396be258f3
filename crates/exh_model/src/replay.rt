ghost use Rattle.std.specs.Prelude.{◌↔◌, IsTrue, IfOk};
ghost use Rattle.exh_calls.specs.History.{IsHistory};

use crate::{MapMachine, PairMap};
use exh_calls::{Base, Journal};
use exh_keyer::Keyer;
use std::alloc::{AllocError, Global};

/// Whether a journal is a history from a base map: its replies are exactly those of the map machine,
/// run over its calls in order from there. A page of the file holds at most `cap` records, and the
/// keyer gives keys their pseudokeys: by these a new key is turned away. An `AllocError` where memory
/// for the map is refused. It is slow: a call costs as much as the map has keys.
pub fn audit<K: Keyer>(
    alloc: Global,
    cap: usize,
    keyer: &K,
    base: &Base,
    journal: &Journal,
) -> Result<bool, AllocError>
    ensures { IfOk result (λ answer. IsTrue answer ↔ IsHistory cap (K.pseudokey_of keyer.now) base.now journal.now.entries) }
{
    let map = PairMap::from_pairs(alloc, base.pairs())?;
    let mut machine = MapMachine::from_map(cap, *keyer, map);
    for entry in journal.iter() {
        if machine.answer(&entry.call)? != entry.reply {
            return Ok(false);
        }
    }
    Ok(true)
}
