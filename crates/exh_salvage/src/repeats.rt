//! Keys that are met again.
ghost use Rattle.std.specs.Prelude.{◌≡◌, ◌++◌, IfOk, OnOk};
ghost use Rattle.exh_salvage.specs.Repeats.{keys_of, repeats_of, told_at};

use crate::SavedPair;
use std::alloc::{AllocError, Global};
use std::collections::BTreeMap;

/// A pair whose key was met before.
#[derive(Clone, Copy, Drop)]
pub struct Repeat {
    /// Which pair it is, of those of a salvage, from 0 on.
    pub index: usize,
    /// The last one before it that has the key.
    pub earlier: usize,
}

/// The pairs whose keys were met before, in their order. An `AllocError` where memory is refused.
pub fn repeats_in(alloc: Global, pairs: &[SavedPair]) -> Result<Vec<Repeat>, AllocError>
    ensures { IfOk result (λ repeats. repeats.items ≡ repeats_of (keys_of pairs.now)) }
{
    let mut indexes = BTreeMap::new(alloc);
    let mut repeats = Vec::new(alloc);
    for index in 0..pairs.len() {
        let key = Vec::from_slice(alloc, pairs[index].key.as_bytes())?;
        let earlier = indexes.insert(key, index)?;
        push_met(&mut repeats, index, earlier)?;
    }
    Ok(repeats)
}

// Adds a pair whose key was met before, if it was.
fn push_met(
    repeats: &mut Vec<Repeat>,
    index: usize,
    earlier: Option<usize>,
) -> Result<(), AllocError>
    ensures { OnOk result (repeats.new.items ≡ repeats.old.items ++ told_at index earlier) }
{
    if let Some(earlier) = earlier {
        repeats.reserve(1)?;
        repeats.push_reserved(Repeat { index, earlier });
    }
    Ok(())
}
