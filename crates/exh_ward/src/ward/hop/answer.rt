ghost use Rattle.std.specs.Prelude.{◌≡◌, ◌<◌, length, slice_set, OnOk, OnErr};
ghost use Rattle.exh_calls.specs.Effect.{change_of};
ghost use Rattle.exh_stores.specs.PageStore.{CountsFaults, IfPage, TakesTheSame};
ghost use Rattle.exh_page.specs.Page.{IsLive, records_of, with_records};
ghost use Rattle.exh_page.specs.Search.{IsStood};
ghost use Rattle.exh_ward.specs.PageAnswer.{records_changed};

use exh_calls::KeyChange;
use exh_page::{Key, Spot};
use exh_prefix::PageNo;
use exh_stores::{Pages, PagesFault};

/// Makes the change of a key at its home page, which has the key's record at `spot`, if it has one.
pub(crate) fn write<P: Pages>(
    store: &mut P,
    at: PageNo,
    spot: Option<Spot>,
    pseudokey: u64,
    key: &Key,
    change: KeyChange<'_>,
) -> Result<(), PagesFault>
    requires there { at < length (P.pages store.old) }
    requires live { IfPage (P.pages store.old) at IsLive }
    requires stood { IfPage (P.pages store.old) at (λ page. IsStood (pseudokey, key.now) (records_of page) spot) }
    requires taken { IfPage (P.pages store.old) at (λ page. P.takes store.old (with_records (records_changed (change_of change) pseudokey key.now (records_of page)) page)) }
    ensures pages { OnOk result (IfPage (P.pages store.old) at (λ page. P.pages store.new ≡ slice_set (P.pages store.old) at (with_records (records_changed (change_of change.entry) pseudokey key.now (records_of page)) page))) }
    ensures err { OnErr result (P.pages store.new ≡ P.pages store.old) }
    ensures failures { CountsFaults result (P.failures store.old) (P.failures store.new) }
    ensures takes { TakesTheSame P.takes store.old store.new }
{
    match change {
        KeyChange::Keep => Ok(()),
        KeyChange::Set(value) => {
            store.put_at(at, spot, pseudokey, key, value)?;
            Ok(())
        }
        KeyChange::Remove => match spot {
            Some(spot) => {
                store.remove_at(at, spot)?;
                Ok(())
            }
            None => Ok(()),
        },
    }
}
