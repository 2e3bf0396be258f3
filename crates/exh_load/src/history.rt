ghost use Rattle.std.specs.Prelude.{IsTrue, IfErr, OnErr, OnOk};
ghost use Rattle.exh_ward.specs.WardFault.{CountsFailures, IsStoreFault};
ghost use Rattle.exh_ward.specs.WardState.{IsSoundWard, IsUnchanged};
ghost use Rattle.exh_load.specs.Loader.{IsOutgrown, MayHaveBegun};

use exh_keyer::Keyer;
use exh_stores::Pages;
use exh_ward::{Ward, WardFault};

/// The fewest entries of a journal with which a history begins anew.
pub const HISTORY_LEN: usize = 256;

/// Begins a ward's history anew where its journal has outgrown its base: that is tried where the journal's length is a
/// power of two, so n puts read at most 4n records again. `Memory` and `Page` may come at any point: then the ward is as
/// before.
pub(crate) fn renew_history<P: Pages + Drop, K: Keyer>(
    ward: &mut Ward<P, K>,
) -> Result<(), WardFault>
    ensures begun { OnOk result (MayHaveBegun ward.old ward.new) }
    ensures err { OnErr result (IsUnchanged ward.old ward.new) }
    ensures fault { IfErr result IsStoreFault }
    ensures failures { CountsFailures result ward.old.failures ward.new.failures }
    ensures sound { OnErr result (IsSoundWard K.pseudokey_of ward.new) }
{
    if has_outgrown(ward) {
        ward.begin_history()?;
    }
    Ok(())
}

// Whether the journal's length is a power of two, and the journal has outgrown the base.
fn has_outgrown<P: Pages + Drop, K: Keyer>(ward: &Ward<P, K>) -> bool
    ensures { IsTrue result → IsOutgrown ward.now }
{
    let entries = ward.journal().len();
    entries.is_power_of_two() && entries >= HISTORY_LEN && entries >= ward.base().pairs().len()
}
