//! What holds of all histories, of leading bits and of all swaps, for the proofs of callers. Each
//! function does nothing.

ghost use Rattle.exh_calls.specs.CallLaws.{HistoriesGoOn, HistoryIsDetermined, SharersBegin, SwapsCompare};

/// A history goes on with the map machine's reply over the map that it leaves, and then leaves the
/// map machine's map.
pub fn histories_go_on()
    ensures { HistoriesGoOn }
{}

/// The calls of a history decide its replies and the map that it leaves.
pub fn history_is_determined()
    ensures { HistoryIsDetermined }
{}

/// A prefix that begins a pseudokey begins all that share its leading bits as `Full` counts them, and
/// one of `LIMIT` bits begins no others.
pub fn sharers_begin()
    ensures { SharersBegin }
{}

/// A swap of a key is `Swapped` exactly where the map gives the key just the bytes of the old value,
/// and then the map is the same but that the key has the new one. It is `Differs` exactly where the map
/// gives the key another value, which it tells, and `None` exactly where it gives it none; then the map
/// is the same.
pub fn swaps_compare()
    ensures { SwapsCompare }
{}
