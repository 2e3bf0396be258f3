ghost use Rattle.std.specs.Prelude.{◌≡◌, ◌<◌, ◌^◌, [], ◌∷◌, ◌++◌, length, slice_get, Some, IfOk, OnOk, OnErr};
ghost use Rattle.std.specs.FinMap as map;
ghost use Rattle.exh_table.specs.Table.{TableMap};
ghost use Rattle.exh_table.specs.TableOrder.{IsTableUpTo, table_join};
ghost use Rattle.exh_array.specs.Sent.{IsBefore, base_in, unpacked};
ghost use Rattle.exh_array.specs.KnownCopy.{AreKnown, IsNoted, IsSentUpTo, forgotten};

use crate::known::{forget, note};
use crate::news::{add_news, is_empty};
use crate::sent_table::SentTable;
use exh_table::Table;
use std::alloc::{AllocError, Global};
use std::collections::BTreeSet;
use std::marker::Model;

/// The tables that were sent, in order. Each goes on from one before it, or from the start table.
#[derive(Drop)]
pub(crate) struct SentTables {
    alloc: Global,
    tables: Vec<SentTable>,
}

impl Model for SentTables {
    ghost use Rattle.std.specs.Prelude.{List};
    ghost use Rattle.std.specs.Coded.{codes};
    ghost use Rattle.exh_table.specs.Table.{coded_table};
    ghost use Rattle.exh_array.specs.declared.sent_table.SentTable.{SentTable};

    ghost Value = { List SentTable };

    ghost coded = { Prim.hlevel (codes, coded_table) };

    ghost use Rattle.exh_array.specs.Sent.{GoBack};

    ghost view = { λ a. a.tables.items };

    ghost invariant = { λ a. GoBack a.tables.items };
}

impl SentTables {
    /// No tables. It takes no memory.
    pub(crate) fn new(alloc: Global) -> SentTables
        ensures { result ≡ [] }
    {
        SentTables {
            alloc,
            tables: Vec::new(alloc),
        }
    }

    /// How many were sent.
    pub(crate) fn len(&self) -> usize
        ensures count { result ≡ length self.now }
        ensures small { result < 2 ^ 63 }
    {
        self.tables.len()
    }

    /// Keeps one more, a copy's own, by the news that it has beyond the one that it goes on from; these are none then.
    /// Where memory is refused, an `AllocError`, all is as before.
    pub(crate) fn push(
        &mut self,
        since: Option<usize>,
        news: &mut Table,
        own: &Table,
    ) -> Result<(), AllocError>
        requires { IsBefore (length self.old) since }
        ensures ok { (start : TableMap) → IsTableUpTo start own.now → own.now ≡ table_join (base_in start (unpacked start self.old) since) news.old
            → OnOk result (unpacked start self.new ≡ unpacked start self.old ++ own.now ∷ []) }
        ensures none { OnOk result (news.new ≡ map.empty) }
        ensures err { OnErr result (self.new ≡ self.old) }
        ensures kept { OnErr result (news.new ≡ news.old) }
    {
        self.tables.reserve(1)?;
        let told = since.map_or(0, |place| self.tables[place].told);
        let sent = SentTable::new(self.alloc, since, told, news, own)?;
        self.tables.push_reserved(sent);
        Ok(())
    }

    /// The place of the table that the one at a place repeats, or that place.
    pub(crate) fn first(&self, place: usize) -> usize
        requires { place < length self.now }
        ensures within { result < length self.now }
        ensures same { (start : TableMap) → slice_get (unpacked start self.now) result ≡ slice_get (unpacked start self.now) place }
    {
        let sent = &self.tables[place];
        match sent.since {
            Some(since) if is_empty(&sent.entries) => since,
            _ => place,
        }
    }

    /// What the table at a place has beyond a copy's own, to which the tables at the known places tell nothing new. An
    /// `AllocError` where memory is refused.
    pub(crate) fn beyond(
        &self,
        place: usize,
        known: &BTreeSet<usize>,
        own: &Table,
    ) -> Result<Table, AllocError>
        requires { place < length self.now }
        ensures { IfOk result (λ news. (start table : TableMap) → IsTableUpTo start own.now → AreKnown (unpacked start self.now) known.now own.now
            → slice_get (unpacked start self.now) place ≡ Some table → table_join own.now news ≡ table_join own.now table) }
    {
        let mut news = Table::new(self.alloc);
        let mut next = Some(place);
        while let Some(at) = next {
            if known.contains(&at) {
                return Ok(news);
            }
            let sent = &self.tables[at];
            add_news(&mut news, own, &sent.entries)?;
            next = sent.since;
        }
        Ok(news)
    }

    /// Notes that the table at a place, and those that it goes on from, tell nothing new; answers the places that were
    /// newly noted, in order. Where memory is refused, an `AllocError`, nothing is noted.
    pub(crate) fn note_known(
        &self,
        place: usize,
        known: &mut BTreeSet<usize>,
    ) -> Result<Vec<usize>, AllocError>
        requires { place < length self.now }
        ensures known { (start own : TableMap) → AreKnown (unpacked start self.now) known.old own → IsSentUpTo (unpacked start self.now) own place → AreKnown (unpacked start self.now) known.new own }
        ensures noted { OnOk result (IsNoted known.new place) }
        ensures back { IfOk result (λ noted. forgotten noted.items known.new ≡ known.old) }
        ensures err { OnErr result (known.new ≡ known.old) }
    {
        let mut noted = Vec::new(self.alloc);
        if let Err(error) = self.note_back(place, known, &mut noted) {
            forget(known, noted);
            return Err(error);
        }
        Ok(noted)
    }

    // Notes the same, and puts the places that were newly noted behind others. On an `Err` some of them may be noted.
    fn note_back(
        &self,
        place: usize,
        known: &mut BTreeSet<usize>,
        noted: &mut Vec<usize>,
    ) -> Result<(), AllocError>
        requires { place < length self.now }
        ensures known { (start own : TableMap) → AreKnown (unpacked start self.now) known.old own → IsSentUpTo (unpacked start self.now) own place → AreKnown (unpacked start self.now) known.new own }
        ensures noted { OnOk result (IsNoted known.new place) }
        ensures back { forgotten noted.new.items known.new ≡ forgotten noted.old.items known.old }
    {
        if !note(known, noted, place)? {
            return Ok(());
        }
        let mut next = self.tables[place].since;
        while let Some(at) = next {
            if !note(known, noted, at)? {
                return Ok(());
            }
            next = self.tables[at].since;
        }
        Ok(())
    }
}
