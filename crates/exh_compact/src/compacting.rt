//! The pairs of a map put into new wards.
ghost use Rattle.std.specs.Prelude.{◌≡◌, Err, IfErr, IfOk};
ghost use Rattle.exhash.specs.Opened.{settings_in};
ghost use Rattle.exhash.specs.CallFault.{IsWardFault};
ghost use Rattle.exhash.specs.FileMap.{KeepsMap};
ghost use Rattle.exhash.specs.Pairs.{AreOnce};
ghost use Rattle.exhash.specs.declared.StoreError.TheVariants.{Settings as SettingsFault};
ghost use Rattle.exh_page.specs.FileSettings.{AreInRange};
ghost use Rattle.exh_compact.specs.Compacted.{IsCompacted, IsFilled, IsOfFilling};

use crate::Compacted;
use crate::filling::fill;
use exh_frames::MAKER;
use exh_stores::Pages;
use exh_ward::new_wards;
use exhash::{FileMap, Opened, Pairs, Settings, StoreError};
use std::alloc::Global;

/// Puts all pairs of a map into new wards of these settings, whose pages are no more than the pairs need. The map stays as it
/// is. It takes memory for the pairs and for the wards.
///
/// `Settings`: these are no file's. `Memory`: a growth was refused. `OutOfReach`: a page is out of reach.
pub fn compact_map<P: Pages + Drop>(
    alloc: Global,
    map: &mut FileMap<P>,
    settings: Settings,
) -> Result<Compacted, StoreError>
    ensures compacted { IfOk result (IsCompacted map.old settings) }
    ensures kept { KeepsMap map.old map.new }
    ensures settings { settings_in map.new ≡ settings_in map.old }
    ensures asked { (AreInRange settings → ⊥) → result ≡ Err SettingsFault }
    ensures refused { IfErr result (IsOfFilling settings) }
{
    if !settings.are_in_range() {
        return Err(StoreError::Settings);
    }
    match map.pairs(alloc) {
        Ok(pairs) => filled(alloc, settings, &pairs),
        Err(fault) => Err(StoreError::from(fault)),
    }
}

// The same of pairs, of which each key stands once.
fn filled(alloc: Global, settings: Settings, pairs: &Pairs) -> Result<Compacted, StoreError>
    requires range { AreInRange settings }
    requires once { AreOnce pairs.now }
    ensures filled { IfOk result (IsFilled pairs.now settings) }
    ensures refused { IfErr result IsWardFault }
{
    let mut wards = new_wards(alloc, &MAKER, settings)?;
    let full = fill(alloc, &settings, &mut wards, pairs)?;
    if full.is_empty() {
        Ok(Compacted::Wards {
            wards: Opened::new(settings, wards),
            records: pairs.len(),
        })
    } else {
        Ok(Compacted::Full(full))
    }
}
