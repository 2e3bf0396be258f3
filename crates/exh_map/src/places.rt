//! The places that pages have in a page file of version 3, once it is saved over.
ghost use Rattle.std.specs.Prelude.{◌≡◌, ◌≤◌, [], ◌∷◌, ◌++◌, drop, IfOk, OnErr, OnOk};
ghost use Rattle.exh_in_place.specs.Opened.{AreWardsOf, in_file};
ghost use Rattle.exh_prefix.specs.declared.prefix.TheConstants.{WARD_BITS_LIMIT};
ghost use Rattle.exh_ward.specs.WardState.{IsUnchanged};
ghost use Rattle.exh_map.specs.FileMap.{KeepsMap};
ghost use Rattle.exh_map.specs.Places.{count_of, lows_in_places, lows_of};

use exh_keyer::{AnyKeyer, Keyer};
use exh_page::FileSettings;
use exh_prefix::ward_number;
use exh_stores::Pages;
use exh_ward::{Ward, WardFault};
use std::alloc::{AllocError, Global};

/// The low bounds of the pages of wards in their places: those that have places already, which have these low bounds, and
/// behind them the others, ward by ward. It takes memory for them.
///
/// `Memory`: a growth was refused. `Page`: a page is out of reach.
pub(crate) fn lows_grown<P: Pages + Drop>(
    alloc: Global,
    settings: FileSettings<AnyKeyer>,
    wards: &mut Vec<Ward<P, AnyKeyer>>,
    lows: &[u64],
) -> Result<Vec<u64>, WardFault>
    requires { AreWardsOf (in_file settings wards.old.items) }
    ensures lows { IfOk result (λ grown. grown.items ≡ lows_in_places settings.ward_bits lows.now wards.old.items) }
    ensures ok { OnOk result (wards.new.items ≡ wards.old.items) }
    ensures err { OnErr result (KeepsMap (in_file settings wards.old.items) (in_file settings wards.new.items)) }
    ensures wards { AreWardsOf (in_file settings wards.new.items) }
{
    let mut grown = Vec::new(alloc);
    grown.extend_from_slice(lows)?;
    'wards: for number in 0..wards.len() {
        let placed = placed_in(settings.ward_bits, number, lows);
        push_others(&mut grown, &mut wards[number], placed)?;
    }
    Ok(grown)
}

// How many of these low bounds are of the pages of a ward.
fn placed_in(ward_bits: u8, number: usize, lows: &[u64]) -> usize
    requires { ward_bits ≤ WARD_BITS_LIMIT }
    ensures { result ≡ count_of ward_bits number lows.now }
{
    let mut placed = 0usize;
    for at in 0..lows.len() {
        if usize::from(ward_number(ward_bits, lows[at])) == number {
            placed += 1;
        }
    }
    placed
}

// Puts the low bounds of the pages of a ward, from one on, behind others.
fn push_others<P: Pages + Drop, K: Keyer>(
    lows: &mut Vec<u64>,
    ward: &mut Ward<P, K>,
    from: usize,
) -> Result<(), WardFault>
    ensures lows { OnOk result (lows.new.items ≡ lows.old.items ++ drop from (lows_of ward.old)) }
    ensures ok { OnOk result (ward.new ≡ ward.old) }
    ensures err { OnErr result (IsUnchanged ward.old ward.new) }
{
    let from = from.min(u32::MAX as usize) as u32;
    'pages: for number in from..ward.page_count() {
        let low = ward.head(number)?.low();
        push_low(lows, low)?;
    }
    Ok(())
}

// Puts a low bound behind others.
fn push_low(lows: &mut Vec<u64>, low: u64) -> Result<(), AllocError>
    ensures { OnOk result (lows.new.items ≡ lows.old.items ++ low ∷ []) }
{
    lows.push(low)?;
    Ok(())
}
