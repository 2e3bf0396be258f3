ghost use Rattle.std.specs.Prelude.{◌≡◌, IfOk, IfErr, OnOk, OnErr};
ghost use Rattle.exh_prefix.specs.Prefix.{Begins};
ghost use Rattle.exh_calls.specs.Call.{key_of};
ghost use Rattle.exh_file.specs.WardChange.{AreSplitsAtMost, IsChanged, IsFullAt, IsHomeAt, IsSplitAway};
ghost use Rattle.exh_ward.specs.WardFault.{CountsFailures, IsStoreFault};
ghost use Rattle.exh_ward.specs.WardState.{IsSoundWard, own_prefix};

use exh_calls::{Call, Reply};
use exh_keyer::Keyer;
use exh_prefix::{LIMIT, PageNo};
use exh_stores::Pages;
use exh_ward::{Hop, Ward, WardFault};

/// The client whose call changes a file.
pub const CHANGER: u32 = 1;

/// Answers a call by the ward that covers its key, whose pseudokey is given: at the page that the ward's own
/// table names, which is split as long as it is full for the key. Nothing is merged. `Memory` and `Page` may come at
/// any point: then there are splits alone.
pub fn change_ward<P: Pages + Drop, K: Keyer>(
    ward: &mut Ward<P, K>,
    call: &Call,
    pseudokey: u64,
) -> Result<Reply, WardFault>
    requires hashed { pseudokey ≡ K.pseudokey_of ward.old.keyer (key_of call.now) }
    requires covered { Begins (own_prefix ward.old) pseudokey }
    ensures changed { IfOk result (λ reply. IsChanged K.pseudokey_of ward.old call.now reply ward.new) }
    ensures err { OnErr result (AreSplitsAtMost ward.old ward.new) }
    ensures fault { IfErr result IsStoreFault }
    ensures failures { CountsFailures result ward.old.failures ward.new.failures }
    ensures sound { IsSoundWard K.pseudokey_of ward.new }
{
    'turns: for turn in 0..LIMIT + 1 {
        let at = named_page(ward, pseudokey);
        match ward.hop_hashed(at, CHANGER, call, pseudokey)? {
            Hop::Done(reply) => return Ok(reply),
            Hop::MustSplit => split_full(ward, at)?,
            Hop::Moved(_) | Hop::Stray => unreachable!(),
        }
    }
    unreachable!()
}

// The page that the ward's table names for a pseudokey of the ward: its home.
fn named_page<P: Pages + Drop, K: Keyer>(ward: &Ward<P, K>, pseudokey: u64) -> PageNo
    requires { Begins (own_prefix ward.now) pseudokey }
    ensures home { IsHomeAt ward.now.pages pseudokey result }
    ensures sound { IsSoundWard K.pseudokey_of ward.now }
{
    let bits = ward.ward_bits();
    ward.table().walk(bits, pseudokey)
}

// Splits a page that is full and shorter than `LIMIT`.
fn split_full<P: Pages + Drop, K: Keyer>(ward: &mut Ward<P, K>, at: PageNo) -> Result<(), WardFault>
    requires { IsFullAt ward.old at }
    ensures split { OnOk result (IsSplitAway ward.old at ward.new) }
    ensures err { OnErr result (AreSplitsAtMost ward.old ward.new) }
    ensures fault { IfErr result IsStoreFault }
    ensures failures { CountsFailures result ward.old.failures ward.new.failures }
    ensures sound { IsSoundWard K.pseudokey_of ward.new }
{
    ward.split(at)?;
    Ok(())
}
