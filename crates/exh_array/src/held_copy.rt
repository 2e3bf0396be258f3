ghost use Rattle.std.specs.Prelude.{◌≡◌, ℕ, [], ◌∷◌, ◌++◌, List, length, slice_get, Some, IsTrue, ◌<◌, OnOk, OnErr};
ghost use Rattle.std.specs.FinMap as map;
ghost use Rattle.exh_table.specs.Table.{TableMap, table_with};
ghost use Rattle.exh_table.specs.TableOrder.{IsTableUpTo, table_join};
ghost use Rattle.exh_array.specs.Pointers.{HasArrayOf};
ghost use Rattle.exh_array.specs.Sent.{IsBefore, unpacked};
ghost use Rattle.exh_array.specs.KnownCopy.{IsNoted, Places};
ghost use Rattle.exh_array.specs.Held.{IsHeld};

use crate::Directory;
use crate::known::forget;
use crate::news::{is_empty, is_told};
use crate::sent_tables::SentTables;
use exh_join::Join;
use exh_notice::Notice;
use exh_table::Table;
use std::alloc::{AllocError, Global};
use std::collections::BTreeSet;

/// A copy of the directory, and what is known of it.
#[derive(Drop)]
pub(crate) struct HeldCopy {
    pub(crate) directory: Directory,
    /// The place of the sent table that it goes on from; where there is none, it is the start table.
    pub(crate) since: Option<usize>,
    /// What the copy has beyond that.
    pub(crate) news: Table,
    /// Places of sent tables that tell the copy nothing new.
    pub(crate) known: BTreeSet<usize>,
}

impl HeldCopy {
    /// A copy that begins at a directory. It takes no memory.
    pub(crate) fn new(alloc: Global, start: Directory) -> HeldCopy
        ensures directory { result.directory ≡ start }
        ensures held { (sent : List TableMap) → IsHeld start.table sent result }
    {
        HeldCopy {
            directory: start,
            since: None,
            news: Table::new(alloc),
            known: BTreeSet::new(alloc),
        }
    }

    /// Whether the copy is seen to be at its start table. It takes no memory.
    pub(crate) fn is_at_start(&self) -> bool
        ensures { (start : TableMap) (sent : List TableMap) → IsHeld start sent self.now → IsTrue result → self.now.directory.table ≡ start }
    {
        self.since.is_none() && is_empty(&self.news)
    }

    /// Takes a notice: at its prefix the greater entry stays. Where memory is refused, an `AllocError`, the copy is as
    /// before.
    pub(crate) fn take(&mut self, notice: &Notice) -> Result<(), AllocError>
        ensures ok { OnOk result (self.new.directory.table ≡ table_with self.old.directory.table notice.now) }
        ensures array { (ward_bits : ℕ) → HasArrayOf ward_bits self.old.directory → HasArrayOf ward_bits self.new.directory }
        ensures held { (start : TableMap) (sent : List TableMap) → IsHeld start sent self.old → IsHeld start sent self.new }
        ensures err { OnErr result (self.new ≡ self.old) }
    {
        if is_told(self.directory.table(), notice.prefix, &notice.entry()) {
            // It is no news, and changes nothing.
            self.directory.take(notice)?;
            return Ok(());
        }
        let stood = self.news.take(notice)?;
        if let Err(error) = self.directory.take(notice) {
            self.news.put_back(notice.prefix, stood);
            return Err(error);
        }
        Ok(())
    }

    /// Sends the copy's table. Where memory is refused, an `AllocError`, all is as before.
    pub(crate) fn send(&mut self, sent: &mut SentTables) -> Result<(), AllocError>
        requires { IsBefore (length sent.old) self.old.since }
        ensures directory { self.new.directory ≡ self.old.directory }
        ensures ok { (start : TableMap) → IsHeld start (unpacked start sent.old) self.old → OnOk result (unpacked start sent.new ≡ unpacked start sent.old ++ self.old.directory.table ∷ []) }
        ensures held { (start : TableMap) → IsHeld start (unpacked start sent.old) self.old → IsHeld start (unpacked start sent.new) self.new }
        ensures noted { (self.old.news ≡ map.empty → ⊥) → OnOk result (IsNoted self.new.known (length sent.old)) }
        ensures err { OnErr result (self.new ≡ self.old) }
        ensures unsent { OnErr result (sent.new ≡ sent.old) }
    {
        if is_empty(&self.news) {
            sent.push(self.since, &mut self.news, self.directory.table())?;
            return Ok(());
        }
        // The refusals come before the table is sent.
        let place = sent.len();
        let is_new = self.known.insert(place)?;
        if let Err(error) = sent.push(self.since, &mut self.news, self.directory.table()) {
            if is_new {
                self.known.remove(&place);
            }
            return Err(error);
        }
        self.since = Some(place);
        Ok(())
    }

    /// Joins the table that was sent under a place. Where memory is refused, an `AllocError`, the copy is as before.
    pub(crate) fn combine(&mut self, place: usize, sent: &SentTables) -> Result<(), AllocError>
        requires { place < length sent.now }
        ensures ok { (start table : TableMap) → IsHeld start (unpacked start sent.now) self.old → slice_get (unpacked start sent.now) place ≡ Some table
            → OnOk result (self.new.directory.table ≡ table_join self.old.directory.table table) }
        ensures array { (ward_bits : ℕ) → HasArrayOf ward_bits self.old.directory → HasArrayOf ward_bits self.new.directory }
        ensures held { (start table : TableMap) → IsHeld start (unpacked start sent.now) self.old → slice_get (unpacked start sent.now) place ≡ Some table → IsTableUpTo start table
            → IsHeld start (unpacked start sent.now) self.new }
        ensures noted { OnOk result (IsNoted self.new.known place) }
        ensures err { OnErr result (self.new ≡ self.old) }
    {
        if self.known.contains(&place) {
            return Ok(());
        }
        let news = sent.beyond(place, &self.known, self.directory.table())?;
        // The refusals come before the table is joined.
        let noted = sent.note_known(place, &mut self.known)?;
        if let Err(error) = self.join(place, &news) {
            forget(&mut self.known, noted);
            return Err(error);
        }
        Ok(())
    }

    // Joins what the sent table under a place has beyond this copy's, whatever is noted as known.
    fn join(&mut self, place: usize, news: &Table) -> Result<(), AllocError>
        ensures ok { OnOk result (self.new.directory.table ≡ table_join self.old.directory.table news.now) }
        ensures array { (ward_bits : ℕ) → HasArrayOf ward_bits self.old.directory → HasArrayOf ward_bits self.new.directory }
        ensures held { (start table : TableMap) (sent : List TableMap) (known : Places) → IsHeld start sent (record self.old { known = known }) → slice_get sent place ≡ Some table → IsTableUpTo start table
            → table_join self.old.directory.table news.now ≡ table_join self.old.directory.table table → IsHeld start sent (record self.new { known = known }) }
        ensures known { self.new.known ≡ self.old.known }
        ensures err { OnErr result (self.new ≡ self.old) }
    {
        if is_empty(news) {
            return Ok(());
        }
        if self.since.is_none() {
            // Beyond the start the copy has the news alone, and the sent table is beyond the start.
            self.directory.join_in(news)?;
            self.since = Some(place);
            return Ok(());
        }
        let mut joined = self.news.try_clone()?;
        joined.join_in(news)?;
        self.directory.join_in(news)?;
        self.news = joined;
        Ok(())
    }
}
