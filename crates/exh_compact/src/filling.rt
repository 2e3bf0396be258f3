//! Pairs put into the wards of a file, one after the other.
ghost use Rattle.std.specs.Prelude.{◌≡◌, [], ◌∷◌, ◌++◌, IfOk, OnOk};
ghost use Rattle.std.specs.FinMap.{empty, from_entries};
ghost use Rattle.exh_calls.specs.declared.call.Call.TheVariants.{Put};
ghost use Rattle.exh_calls.specs.declared.reply.Reply.TheVariants.{New};
ghost use Rattle.exhash.specs.FileChange.{ChangesOneMap, HasMap};
ghost use Rattle.exhash.specs.Opened.{AreWardsOf, in_file};
ghost use Rattle.exh_keyer.specs.Pseudokey.{any_pseudokey};
ghost use Rattle.exhash.specs.Pairs.{AreOnce};
ghost use Rattle.exh_compact.specs.Needed.{AreAllNeeded};
ghost use Rattle.exh_compact.specs.Room.{without_room};

use crate::putting::put_pair;
use exh_calls::Reply;
use exh_keyer::{AnyKeyer, Keyer};
use exh_page::{Key, Value};
use exh_prefix::ward_number;
use exh_stores::Pages;
use exh_ward::{Ward, WardFault};
use exhash::{Pairs, Settings};
use std::alloc::{AllocError, Global};

/// Puts pairs into the wards of a file that has none, and answers the keys for which there is no room. It takes memory for
/// the pages, and for these keys.
///
/// `Memory`: a growth was refused. `Page`: a page is out of reach.
pub(crate) fn fill<P: Pages + Drop>(
    alloc: Global,
    settings: &Settings,
    wards: &mut Vec<Ward<P, AnyKeyer>>,
    pairs: &Pairs,
) -> Result<Vec<Key>, WardFault>
    requires wards { AreWardsOf (in_file settings.now wards.old.items) }
    requires none { HasMap (in_file settings.now wards.old.items) empty }
    requires needed { AreAllNeeded wards.old.items }
    requires once { AreOnce pairs.now }
    ensures wards { OnOk result (AreWardsOf (in_file settings.now wards.new.items)) }
    ensures full { IfOk result (λ keys. keys.items ≡ without_room settings.now.cap (any_pseudokey settings.now.keyer) [] pairs.now) }
    ensures map { IfOk result (λ keys. keys.items ≡ [] → HasMap (in_file settings.now wards.new.items) (from_entries pairs.now)) }
    ensures needed { IfOk result (λ keys. keys.items ≡ [] → AreAllNeeded wards.new.items) }
{
    let mut full = Vec::new(alloc);
    'puts: for (key, value) in pairs.iter() {
        match put_in(settings, wards, &key, &value)? {
            Reply::Full => push_key(&mut full, key)?,
            _ => {}
        }
    }
    Ok(full)
}

// Puts a pair into the ward of its key.
fn put_in<P: Pages + Drop>(
    settings: &Settings,
    wards: &mut Vec<Ward<P, AnyKeyer>>,
    key: &Key,
    value: &Value,
) -> Result<Reply, WardFault>
    requires { AreWardsOf (in_file settings.now wards.old.items) }
    ensures one { IfOk result (λ reply. ChangesOneMap (in_file settings.now wards.old.items) (Put key.now value.now) reply (in_file settings.now wards.new.items)) }
    ensures wards { OnOk result (AreWardsOf (in_file settings.now wards.new.items)) }
    ensures needed { IfOk result (λ reply. reply ≡ New → AreAllNeeded wards.old.items → AreAllNeeded wards.new.items) }
{
    let pseudokey = settings.keyer.pseudo(key.as_bytes());
    let at = usize::from(ward_number(settings.ward_bits, pseudokey));
    let ward = &mut wards[at];
    put_pair(ward, key, value, pseudokey)
}

// Puts a key behind others.
fn push_key(keys: &mut Vec<Key>, key: Key) -> Result<(), AllocError>
    ensures { OnOk result (keys.new.items ≡ keys.old.items ++ key ∷ []) }
{
    keys.push(key)?;
    Ok(())
}
