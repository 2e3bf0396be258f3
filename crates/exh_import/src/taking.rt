//! What is done of each line of a text.
ghost use Rattle.std.specs.Prelude.{◌≡◌, ◌≢◌, ◌+◌, IfErr, IfOk, OnOk};
ghost use Rattle.exh_import.specs.Causes.{IsStoreCause, IsTakeCause};
ghost use Rattle.exh_import.specs.Counting.{closed, ended, first_opening, is_amiss, is_right_end, opened, rejected_counted, rested, saved, starts, told_lines};
ghost use Rattle.exh_import.specs.Imports.{Finishes, Puts, RestsWhere, SavesBatch, TakesAmid, TakesLine};
ghost use Rattle.exh_import.specs.declared.import_fault.ImportFault.TheVariants.{OtherFormat};

use crate::{Added, ImportFault, ImportOptions, Imported, ImportedStore, Rejection, Rejects};
use exh_page::{Key, Value};
use exh_pair_text::{Line, PairFormat, line_of};
use std::alloc::Global;

// How far an import is.
#[derive(Clone, Copy)]
pub(crate) struct Taking<'n> {
    options: ImportOptions<'n>,
    pub(crate) imported: Imported,
    // The text begins with an opening.
    is_opened: bool,
    // Pairs that were put since the last commit.
    unsaved: u64,
    // A batch was committed, and no put came since.
    is_saved: bool,
}

impl<'n> Taking<'n> {
    // Of a text of which no line is taken, but those with which it was begun.
    pub(crate) fn new(options: &ImportOptions<'n>) -> Taking<'n>
        ensures { result ≡ starts options.now }
    {
        Taking {
            options: *options,
            imported: Imported {
                lines: options.begun.lines(),
                pairs: 0,
                rejected: 0,
                full: 0,
                is_cut_off: options.begun.is_opened,
                is_committed: false,
            },
            is_opened: options.begun.is_opened,
            unsaved: 0,
            is_saved: false,
        }
    }

    // Takes the next line, which is the text's last one or isn't.
    pub(crate) fn take<S: ImportedStore, L: Rejects>(
        &mut self,
        alloc: Global,
        line: &[u8],
        is_last: bool,
        store: &mut S,
        listener: &mut L,
    ) -> Result<(), ImportFault>
        ensures cause { IfErr result (IsTakeCause S.refused self.old line.now store.new) }
        ensures taken { OnOk result (TakesLine S.gives S.saves S.rests L.told is_last line.now
            (record { taking = self.old; store = store.old; listener = listener.old })
            (record { taking = self.new; store = store.new; listener = listener.new })) }
    {
        let is_first = self.imported.lines == 0;
        let read = line_of(
            alloc,
            self.options.format,
            self.options.is_hex,
            &self.options.layout,
            line,
        )?;
        self.imported.lines = self.imported.lines.saturating_add(1);
        match first_opening(is_first, &read) {
            Some(found) => self.open(found, is_last),
            None if self.is_opened && is_last => {
                self.close(&read);
                Ok(())
            }
            None => self.take_amid(&read, line, store, listener),
        }
    }

    // Begins an export, of which the opening may be the last line.
    fn open(&mut self, found: PairFormat, is_last: bool) -> Result<(), ImportFault>
        ensures opened { OnOk result ((found ≡ self.old.options.format) × (self.new ≡ opened is_last self.old)) }
        ensures other { IfErr result (λ fault. (fault ≡ OtherFormat found) × (found ≢ self.old.options.format)) }
    {
        if found != self.options.format {
            return Err(ImportFault::OtherFormat { found });
        }
        self.is_opened = true;
        self.imported.is_cut_off = is_last;
        Ok(())
    }

    // Ends an export by its last line.
    fn close(&mut self, read: &Line)
        ensures { self.new ≡ closed read.now self.old }
    {
        self.imported.is_cut_off = !is_right_end(self.told_lines(), read);
    }

    // How many lines were put or rejected.
    fn told_lines(&self) -> u64
        ensures { result ≡ told_lines self.now.imported }
    {
        let put = self.imported.pairs.saturating_add(self.imported.full);
        put.saturating_add(self.imported.rejected)
    }

    // Takes a line amid a text.
    fn take_amid<S: ImportedStore, L: Rejects>(
        &mut self,
        read: &Line,
        line: &[u8],
        store: &mut S,
        listener: &mut L,
    ) -> Result<(), ImportFault>
        ensures cause { IfErr result (IsStoreCause S.refused store.new) }
        ensures taken { OnOk result (TakesAmid S.gives S.saves S.rests L.told read.now line.now
            (record { taking = self.old; store = store.old; listener = listener.old })
            (record { taking = self.new; store = store.new; listener = listener.new })) }
    {
        match read {
            Line::Pair { key, value } => return self.put(key, value, line, store, listener),
            Line::Empty => {}
            Line::Wrong(wrong) => self.reject(Rejection::Wrong(*wrong), line, listener),
            Line::Opening(_) | Line::End(_) => self.reject(Rejection::Misplaced, line, listener),
        }
        Ok(())
    }

    // Puts a pair, behind a rest where a batch was committed, and commits where that is due.
    fn put<S: ImportedStore, L: Rejects>(
        &mut self,
        key: &Key,
        value: &Value,
        line: &[u8],
        store: &mut S,
        listener: &mut L,
    ) -> Result<(), ImportFault>
        ensures cause { IfErr result (IsStoreCause S.refused store.new) }
        ensures put { OnOk result (Puts S.gives S.saves S.rests L.told key.now value.now line.now
            (record { taking = self.old; store = store.old; listener = listener.old })
            (record { taking = self.new; store = store.new; listener = listener.new })) }
    {
        self.rest(store)?;
        match store.put(key.as_bytes(), value.as_bytes())? {
            Added::Full => {
                self.imported.full = self.imported.full.saturating_add(1);
                listener.reject(self.imported.lines, Rejection::Full, line);
                Ok(())
            }
            Added::Put => {
                self.imported.pairs = self.imported.pairs.saturating_add(1);
                self.unsaved = self.unsaved.saturating_add(1);
                self.save_batch(store)
            }
        }
    }

    // Lets others at the store, where a batch was committed and no put came since.
    fn rest<S: ImportedStore>(&mut self, store: &mut S) -> Result<(), ImportFault>
        ensures cause { IfErr result (IsStoreCause S.refused store.new) }
        ensures rested { OnOk result ((self.new ≡ rested self.old) × RestsWhere S.rests self.old.is_saved store.old store.new) }
    {
        if self.is_saved {
            store.rest()?;
        }
        self.is_saved = false;
        Ok(())
    }

    // Commits where as many pairs are put as a batch has, and as were committed before: so all commits together cost a few
    // times the last.
    fn save_batch<S: ImportedStore>(&mut self, store: &mut S) -> Result<(), ImportFault>
        ensures cause { IfErr result (IsStoreCause S.refused store.new) }
        ensures saved { OnOk result (SavesBatch S.saves self.old store.old self.new store.new) }
    {
        let before = self.imported.pairs.saturating_sub(self.unsaved);
        if self.options.is_atomic || self.unsaved < self.options.batch || self.unsaved < before {
            return Ok(());
        }
        self.save(store)
    }

    // Commits.
    fn save<S: ImportedStore>(&mut self, store: &mut S) -> Result<(), ImportFault>
        ensures cause { IfErr result (IsStoreCause S.refused store.new) }
        ensures saved { OnOk result ((self.new ≡ saved self.old) × S.saves store.old store.new) }
    {
        store.commit()?;
        self.unsaved = 0;
        self.is_saved = true;
        Ok(())
    }

    // Counts a line that is rejected, and tells of it.
    fn reject<L: Rejects>(&mut self, cause: Rejection, line: &[u8], listener: &mut L)
        ensures taking { self.new ≡ rejected_counted self.old }
        ensures told { L.told listener.old self.old.imported.lines cause line.now listener.new }
    {
        self.imported.rejected = self.imported.rejected.saturating_add(1);
        listener.reject(self.imported.lines, cause, line);
    }

    // Ends an import of a text of which each line has its newline, or the last one hasn't: commits what isn't, or leaves all
    // that was put uncommitted where all or none is to be.
    pub(crate) fn finish<S: ImportedStore>(
        &mut self,
        is_whole: bool,
        store: &mut S,
    ) -> Result<Imported, ImportFault>
        ensures cause { IfErr result (IsStoreCause S.refused store.new) }
        ensures finished { IfOk result (λ imported. Finishes S.saves (ended is_whole self.old) store.old imported store.new) }
    {
        self.see_end(is_whole);
        if self.options.is_atomic && self.is_amiss() {
            return Ok(self.imported);
        }
        self.save(store)?;
        self.imported.is_committed = true;
        Ok(self.imported)
    }

    // Takes an export to be cut off whose last line hasn't its newline: it may be the beginning of a longer one.
    fn see_end(&mut self, is_whole: bool)
        ensures { self.new ≡ ended is_whole self.old }
    {
        if !is_whole {
            self.imported.is_cut_off = self.is_opened || self.imported.is_cut_off;
        }
    }

    // Whether something of the text wasn't put.
    fn is_amiss(&self) -> bool
        ensures { result ≡ is_amiss self.now.imported }
    {
        self.imported.rejected != 0 || self.imported.full != 0 || self.imported.is_cut_off
    }
}

// The format that a text's first line opens with.
pub(crate) fn first_opening(is_first: bool, read: &Line) -> Option<PairFormat>
    ensures { result ≡ first_opening is_first read.now }
{
    match read {
        Line::Opening(format) if is_first => Some(*format),
        _ => None,
    }
}

// Whether a line is the end of so many.
fn is_right_end(count: u64, read: &Line) -> bool
    ensures { result ≡ is_right_end count read.now }
{
    match read {
        Line::End(number) => *number == count,
        _ => false,
    }
}
