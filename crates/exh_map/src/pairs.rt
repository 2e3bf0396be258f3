//! The pairs of a page file's map, page by page.
ghost use Rattle.std.specs.Prelude.{◌≡◌, ◌++◌, IfOk, OnErr, OnOk, length, take};
ghost use Rattle.std.specs.FinMap.{from_entries};
ghost use Rattle.exh_in_place.specs.FileChange.{HasMap};
ghost use Rattle.exh_in_place.specs.Opened.{AreWardsOf, in_file, settings_in};
ghost use Rattle.exh_map.specs.FileMap.{KeepsMap};
ghost use Rattle.exh_map.specs.Pairs.{AreOnce, pairs_in};

use crate::ward_pairs::push_ward;
use exh_calls::{PackedPairs, Pairs as ReadPairs};
use exh_keyer::AnyKeyer;
use exh_page::FileSettings;
use exh_stores::Pages;
use exh_ward::{Ward, WardFault};
use std::alloc::Global;
use std::marker::Model;

/// The pairs that a store had when it was asked: each key once, in the order of the pages.
#[derive(Drop)]
pub struct Pairs {
    packed: PackedPairs,
}

impl Model for Pairs {
    ghost use Rattle.std.specs.Prelude.{ℕ, List};

    ghost Value = { List (List ℕ × List ℕ) };

    ghost view = { λ a. a.packed };
}

impl Pairs {
    /// The pairs, from the first on. It takes no memory.
    pub fn iter(&self) -> ReadPairs<'_>
        ensures { result ≡ self.now }
    {
        self.packed.iter()
    }

    /// How many there are. It takes no memory, and no time for the pairs.
    pub fn len(&self) -> usize
        ensures { result ≡ length self.now }
    {
        self.packed.iter().len()
    }
}

/// The pairs of the wards of a file, in the order of the pages. It takes memory for them.
///
/// `Memory`: a growth was refused. `Page`: a page is out of reach.
pub(crate) fn pairs_of<P: Pages + Drop>(
    alloc: Global,
    settings: FileSettings<AnyKeyer>,
    wards: &mut Vec<Ward<P, AnyKeyer>>,
) -> Result<Pairs, WardFault>
    requires { AreWardsOf (in_file settings wards.old.items) }
    ensures pairs { IfOk result (λ pairs. pairs ≡ pairs_in wards.old.items) }
    ensures once { OnOk result (AreOnce (pairs_in wards.old.items)) }
    ensures has { OnOk result (HasMap (in_file settings wards.old.items) (from_entries (pairs_in wards.old.items))) }
    ensures ok { OnOk result (wards.new.items ≡ wards.old.items) }
    ensures err { OnErr result (KeepsMap (in_file settings wards.old.items) (in_file settings wards.new.items)) }
    ensures wards { AreWardsOf (in_file settings wards.new.items) }
{
    let mut packed = PackedPairs::new(alloc);
    'wards: for number in 0..wards.len() {
        push_ward(&mut packed, &mut wards[number])?;
    }
    Ok(Pairs { packed })
}
