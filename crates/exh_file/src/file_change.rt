ghost use Rattle.std.specs.Prelude.{◌≡◌, IfOk, IfErr};
ghost use Rattle.exh_file.specs.FileChange.{ChangesOneMap, IsChangedIn};
ghost use Rattle.exh_file.specs.Opened.{AreWardsOf, in_file, settings_in};
ghost use Rattle.exh_ward.specs.WardFault.{IsStoreFault};

use crate::{Opened, change_ward};
use exh_calls::{Call, Reply};
use exh_keyer::{AnyKeyer, Keyer};
use exh_page::FileSettings;
use exh_prefix::ward_number;
use exh_stores::Pages;
use exh_ward::{Ward, WardFault};

/// Answers a call by the ward of its key, as `change_ward` does, and gives the file that it leaves. `Memory` and `Page`
/// may come at any point: then there is no file, so that nothing of it can be saved.
pub fn change_file<P: Pages + Drop>(
    file: Opened<P>,
    call: &Call,
) -> Result<(Reply, Opened<P>), WardFault>
    ensures changed { IfOk result (λ left. IsChangedIn file call.now left.0 left.1) }
    ensures one { IfOk result (λ left. ChangesOneMap file call.now left.0 left.1) }
    ensures settings { IfOk result (λ left. settings_in left.1 ≡ settings_in file) }
    ensures fault { IfErr result IsStoreFault }
{
    let settings = file.settings();
    let mut wards = file.into_wards();
    match change_in(&settings, &mut wards, call) {
        Ok(reply) => Ok((reply, Opened::new(settings, wards))),
        Err(fault) => Err(fault),
    }
}

// Answers a call by the ward of its key, of the wards of a file of these settings.
fn change_in<P: Pages + Drop>(
    settings: &FileSettings<AnyKeyer>,
    wards: &mut Vec<Ward<P, AnyKeyer>>,
    call: &Call,
) -> Result<Reply, WardFault>
    requires { AreWardsOf (in_file settings.now wards.old.items) }
    ensures changed { IfOk result (λ reply. IsChangedIn (in_file settings.now wards.old.items) call.now reply (in_file settings.now wards.new.items)) }
    ensures one { IfOk result (λ reply. ChangesOneMap (in_file settings.now wards.old.items) call.now reply (in_file settings.now wards.new.items)) }
    ensures wards { AreWardsOf (in_file settings.now wards.new.items) }
    ensures fault { IfErr result IsStoreFault }
{
    let pseudokey = settings.keyer.pseudo(call.key().as_bytes());
    let at = usize::from(ward_number(settings.ward_bits, pseudokey));
    let ward = &mut wards[at];
    change_ward(ward, call, pseudokey)
}
