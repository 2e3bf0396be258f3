//! One pair put into the ward of its key, of which no page is split but one that is full for it.
ghost use Rattle.std.specs.Prelude.{◌≡◌, IfOk, OnOk};
ghost use Rattle.exh_calls.specs.declared.call.Call.TheVariants.{Put};
ghost use Rattle.exh_calls.specs.declared.reply.Reply.TheVariants.{New};
ghost use Rattle.exhash.specs.WardChange.{IsChanged, IsHomeAt, IsSplitAway};
ghost use Rattle.exh_keyer.specs.Pseudokey.{any_pseudokey};
ghost use Rattle.exh_prefix.specs.Prefix.{Begins};
ghost use Rattle.exh_ward.specs.WardState.{IsSoundWard, own_prefix};
ghost use Rattle.exh_compact.specs.Needed.{AreNeeded};

use exh_calls::{Call, Reply};
use exh_keyer::AnyKeyer;
use exh_page::{Key, Value};
use exh_prefix::{LIMIT, PageNo};
use exh_stores::Pages;
use exh_ward::{Hop, Ward, WardFault};
use exhash::CHANGER;

/// Puts a pair into the ward that covers its key, whose pseudokey is given: at the key's home, which is split as long as it
/// is full for the key. So no page is more than the pairs need, if none was before and the key is new.
///
/// `Memory`: a growth was refused. `Page`: a page is out of reach. Then pages may have been split.
pub(crate) fn put_pair<P: Pages + Drop>(
    ward: &mut Ward<P, AnyKeyer>,
    key: &Key,
    value: &Value,
    pseudokey: u64,
) -> Result<Reply, WardFault>
    requires hashed { pseudokey ≡ any_pseudokey ward.old.keyer key.now }
    requires covered { Begins (own_prefix ward.old) pseudokey }
    ensures changed { IfOk result (λ reply. IsChanged any_pseudokey ward.old (Put key.now value.now) reply ward.new) }
    ensures needed { IfOk result (λ reply. reply ≡ New → AreNeeded ward.old → AreNeeded ward.new) }
{
    let call = Call::Put {
        key: *key,
        value: *value,
    };
    'turns: for turn in 0..LIMIT + 1 {
        let at = named_page(ward, pseudokey);
        match ward.hop_hashed(at, CHANGER, &call, pseudokey)? {
            Hop::Done(reply) => return Ok(reply),
            Hop::MustSplit => split_away(ward, at)?,
            Hop::Moved(_) | Hop::Stray => unreachable!(),
        }
    }
    unreachable!()
}

// The page that the ward's table names for a pseudokey of the ward: its home.
fn named_page<P: Pages + Drop>(ward: &Ward<P, AnyKeyer>, pseudokey: u64) -> PageNo
    requires { Begins (own_prefix ward.now) pseudokey }
    ensures home { IsHomeAt ward.now.pages pseudokey result }
    ensures sound { IsSoundWard any_pseudokey ward.now }
{
    let bits = ward.ward_bits();
    ward.table().walk(bits, pseudokey)
}

// Splits a page. Its notice is the ward's.
fn split_away<P: Pages + Drop>(ward: &mut Ward<P, AnyKeyer>, at: PageNo) -> Result<(), WardFault>
    ensures { OnOk result (IsSplitAway ward.old at ward.new) }
{
    ward.split(at)?;
    Ok(())
}
