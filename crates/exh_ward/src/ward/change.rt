ghost use Rattle.std.specs.Prelude.{◌≡◌, ◌≢◌, ◌+◌, ◌<◌, length, vec_len, vec_capacity, IfOk, IfErr, OnOk, OnErr};
ghost use Rattle.std.specs.FinMap as map;
ghost use Rattle.exh_legal.specs.Table.{entry_after, entry_number, raised};
ghost use Rattle.exh_stores.specs.PageStore.{CountsFaults, IfPage, TakesTheSame};
ghost use Rattle.exh_legal.specs.ChangeNumbers.{index_of, next_notice};
ghost use Rattle.exh_ward.specs.Told.{FitChange, IsTold, MayChange, page_changed, pages_changed, twin_changed};
ghost use Rattle.exh_ward.specs.WardFault.{CountsFailures, IsTakingFault, IsTellingFault};
ghost use Rattle.exh_ward.specs.WardState.{IsSoundWard, IsUnchanged};

use super::Ward;
use crate::WardFault;
use exh_keyer::Keyer;
use exh_legal::{PageIndex, Table};
use exh_notice::{Entry, Kind, Notice};
use exh_prefix::{PageNo, Prefix};
use exh_stores::{Pages, PagesFault};

impl<P: Pages + Drop, K: Keyer> Ward<P, K> {
    // The index of the next notice.
    pub(super) fn next_index(&self) -> u64
        ensures { result ≡ index_of self.now.table + 1 }
    {
        self.told + self.notices.len() as u64 + 1
    }

    /// Changes two pages as a kind of change says, and tells of it at a prefix. What comes of the pages is
    /// legal.
    pub(super) fn change_two(
        &mut self,
        number: PageNo,
        other: PageNo,
        prefix: Prefix,
        kind: Kind,
    ) -> Result<Notice, WardFault>
        requires { MayChange (K.pseudokey_of self.old.keyer) self.old number other prefix kind }
        ensures notice { IfOk result (λ notice. notice ≡ next_notice self.old.number self.old.table prefix kind) }
        ensures ok { OnOk result (IfPage self.old.pages number (λ page. IfPage self.old.pages other (λ twin. IsTold self.old (next_notice self.old.number self.old.table prefix kind) (pages_changed kind prefix number other page twin self.old.pages) self.new))) }
        ensures err { OnErr result (IsUnchanged self.old self.new) }
        ensures fault { IfErr result (IsTellingFault self.old prefix) }
        ensures failures { CountsFailures result self.old.failures self.new.failures }
        ensures sound { IsSoundWard K.pseudokey_of self.new }
    {
        let index = self.next_index();
        let stood = take(&mut self.notices, &mut self.table, prefix, kind)?;
        if let Err(fault) = write(&mut self.store, number, other, prefix, kind) {
            self.table.put_back(prefix, stood);
            return Err(fault.into());
        }
        let notice = &notice_after(stood, self.number, index, prefix, kind);
        self.notices.push_reserved(*notice);
        Ok(*notice)
    }
}

// Has the store make a change of two pages, which is told at a prefix.
fn write<P: Pages>(
    store: &mut P,
    number: PageNo,
    other: PageNo,
    prefix: Prefix,
    kind: Kind,
) -> Result<(), PagesFault>
    requires there { number < length (P.pages store.old) }
    requires other_there { other < length (P.pages store.old) }
    requires apart { number ≢ other }
    requires fit { IfPage (P.pages store.old) number (λ page. IfPage (P.pages store.old) other (FitChange kind other page)) }
    requires taken { IfPage (P.pages store.old) number (λ page. IfPage (P.pages store.old) other (λ twin. P.takes store.old (page_changed kind prefix page twin))) }
    requires twin_taken { IfPage (P.pages store.old) number (λ page. IfPage (P.pages store.old) other (λ twin. P.takes store.old (twin_changed kind number page twin))) }
    ensures ok { OnOk result (IfPage (P.pages store.old) number (λ page. IfPage (P.pages store.old) other (λ twin. P.pages store.new ≡ pages_changed kind prefix number other page twin (P.pages store.old)))) }
    ensures err { OnErr result (P.pages store.new ≡ P.pages store.old) }
    ensures failures { CountsFaults result (P.failures store.old) (P.failures store.new) }
    ensures takes { TakesTheSame P.takes store.old store.new }
{
    match kind {
        Kind::Split { .. } => store.split_into(number, other),
        Kind::Merge => store.merge(prefix, number, other),
    }
}

// Has the table take the entry of the next change at a prefix, and room for its notice among the
// notices: nothing may fail once the pages have changed. It answers what stood in the table. Where it
// is refused, `Worn` if the number there is the greatest, both are as before.
fn take(
    notices: &mut Vec<Notice>,
    table: &mut Table,
    prefix: Prefix,
    kind: Kind,
) -> Result<Option<Entry>, WardFault>
    ensures items { notices.new.items ≡ notices.old.items }
    ensures room { OnOk result (vec_len notices.new < vec_capacity notices.new) }
    ensures stood { IfOk result (λ stood. stood ≡ map.get table.old prefix) }
    ensures more { OnOk result (entry_number (map.get table.old prefix) ≢ u32.MAX) }
    ensures ok { OnOk result (table.new ≡ raised table.old prefix (entry_after (map.get table.old prefix) kind)) }
    ensures err { OnErr result (table.new ≡ table.old) }
    ensures fault { IfErr result (IsTakingFault table.old prefix) }
{
    notices.reserve(1)?;
    let stood = table.put_next(prefix, kind)?;
    match stood {
        Some(entry) if entry.number == u32::MAX => Err(WardFault::Worn),
        _ => Ok(stood),
    }
}

// The same for a change at a low bound that was put into the index: where it is refused, that is taken
// out again.
pub(super) fn take_or_forget(
    notices: &mut Vec<Notice>,
    table: &mut Table,
    index: &mut PageIndex,
    change: (Prefix, Kind, u64),
) -> Result<Option<Entry>, WardFault>
    ensures items { notices.new.items ≡ notices.old.items }
    ensures room { OnOk result (vec_len notices.new < vec_capacity notices.new) }
    ensures stood { IfOk result (λ stood. stood ≡ map.get table.old change.0) }
    ensures more { OnOk result (entry_number (map.get table.old change.0) ≢ u32.MAX) }
    ensures ok { OnOk result (table.new ≡ raised table.old change.0 (entry_after (map.get table.old change.0) change.1)) }
    ensures index_ok { OnOk result (index.new ≡ index.old) }
    ensures err { OnErr result (table.new ≡ table.old) }
    ensures index_err { OnErr result (index.new ≡ map.remove index.old change.2) }
    ensures fault { IfErr result (IsTakingFault table.old change.0) }
{
    let (prefix, kind, low) = change;
    match take(notices, table, prefix, kind) {
        Ok(stood) => Ok(stood),
        Err(fault) => {
            index.remove(low);
            Err(fault)
        }
    }
}

// The notice of the change after what stood at a prefix, whose number isn't the greatest.
pub(super) fn notice_after(
    stood: Option<Entry>,
    ward: u8,
    index: u64,
    prefix: Prefix,
    kind: Kind,
) -> Notice
    requires { entry_number stood ≢ u32.MAX }
    ensures { result ≡ record { ward = ward; index = index; prefix = prefix; number = entry_number stood + 1; kind = kind } }
{
    let number = match stood {
        Some(entry) => entry.number + 1,
        None => 1,
    };
    Notice {
        ward,
        index,
        prefix,
        number,
        kind,
    }
}
