//! One call over the wards of a file, which are as before where it is refused, but for splits.
ghost use Rattle.std.specs.Prelude.{◌≡◌, IfOk, OnErr};
ghost use Rattle.exh_calls.specs.Call.{key_of};
ghost use Rattle.exh_keyer.specs.Pseudokey.{any_pseudokey};
ghost use Rattle.exh_prefix.specs.Prefix.{Begins};
ghost use Rattle.exh_in_place.specs.FileChange.{ChangesOneMap};
ghost use Rattle.exh_in_place.specs.Opened.{AreWardsOf, in_file};
ghost use Rattle.exh_ward.specs.WardState.{own_prefix};
ghost use Rattle.exh_map.specs.FileMap.{IsAnsweredBy, IsSameMap, KeepsMap};

use crate::histories::renew;
use exh_calls::{Call, Reply};
use exh_in_place::change_ward;
use exh_keyer::{AnyKeyer, Keyer};
use exh_page::FileSettings;
use exh_prefix::ward_number;
use exh_stores::Pages;
use exh_ward::{Ward, WardFault};

/// Answers a call by the ward of its key, of the wards of a file of these settings.
///
/// `Memory`: a growth was refused. `Page`: a page is out of reach. The map is as before then.
pub(crate) fn answer_in<P: Pages + Drop>(
    settings: &FileSettings<AnyKeyer>,
    wards: &mut Vec<Ward<P, AnyKeyer>>,
    call: &Call,
) -> Result<Reply, WardFault>
    requires { AreWardsOf (in_file settings.now wards.old.items) }
    ensures one { IfOk result (λ reply. ChangesOneMap (in_file settings.now wards.old.items) call.now reply (in_file settings.now wards.new.items)) }
    ensures err { OnErr result (KeepsMap (in_file settings.now wards.old.items) (in_file settings.now wards.new.items)) }
    ensures wards { AreWardsOf (in_file settings.now wards.new.items) }
{
    let pseudokey = settings.keyer.pseudo(call.key().as_bytes());
    let at = usize::from(ward_number(settings.ward_bits, pseudokey));
    let ward = &mut wards[at];
    answer_by(ward, call, pseudokey)
}

// Answers a call by the ward that covers its key, whose history may begin anew then.
fn answer_by<P: Pages + Drop>(
    ward: &mut Ward<P, AnyKeyer>,
    call: &Call,
    pseudokey: u64,
) -> Result<Reply, WardFault>
    requires hashed { pseudokey ≡ any_pseudokey ward.old.keyer (key_of call.now) }
    requires covered { Begins (own_prefix ward.old) pseudokey }
    ensures answered { IfOk result (λ reply. IsAnsweredBy ward.old call.now reply ward.new) }
    ensures err { OnErr result (IsSameMap ward.old ward.new) }
{
    let reply = change_ward(ward, call, pseudokey);
    renew(ward);
    reply
}
