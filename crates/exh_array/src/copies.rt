ghost use Rattle.std.specs.Prelude.{◌≡◌, ◌<◌, ◌^◌, [], ◌∷◌, ◌++◌, length, replicate, slice_get, slice_set, Some, IfOk, OnOk, OnErr};
ghost use Rattle.exh_table.specs.Table.{TableMap, table_with};
ghost use Rattle.exh_table.specs.TableOrder.{table_join};
ghost use Rattle.exh_array.specs.Pointers.{HasArrayOf};

use crate::Directory;
use crate::held_copy::HeldCopy;
use crate::sent_tables::SentTables;
use exh_notice::Notice;
use std::alloc::{AllocError, Global};
use std::marker::Model;

/// The copies of a file's directory, and the tables sent between them. Both have places, from 0 on.
#[derive(Drop)]
pub struct Copies {
    alloc: Global,
    start: Directory,
    copies: Vec<HeldCopy>,
    sent: SentTables,
}

impl Model for Copies {
    ghost use Rattle.std.specs.Coded.{codes};
    ghost use Rattle.exh_table.specs.Table.{coded_table};
    ghost use Rattle.exh_array.specs.Copies.{CopiesState};

    ghost Value = { CopiesState };

    ghost coded = { Prim.hlevel (codes, coded_table) };

    ghost use Rattle.exh_array.specs.Sent.{unpacked};
    ghost use Rattle.exh_array.specs.KeptCopies.{AreKept, tables_of};

    ghost view = { λ a. record { ward_bits = a.start.pointers.ward_bits; start = a.start.table; copies = tables_of a.copies.items; sent = unpacked a.start.table a.sent } };

    ghost invariant = { λ a. AreKept a.start a.copies.items (unpacked a.start.table a.sent) };
}

impl Copies {
    /// So many copies that begin at a directory; no table was sent. An `AllocError` where memory is refused.
    pub fn new(alloc: Global, start: Directory, count: u32) -> Result<Copies, AllocError>
        requires { HasArrayOf start.pointers.ward_bits start }
        ensures { IfOk result (λ copies. copies ≡ record { ward_bits = start.pointers.ward_bits; start = start.table; copies = replicate count start.table; sent = [] }) }
    {
        let mut copies = Vec::new(alloc);
        for _ in 0..count {
            copies.push(HeldCopy::new(alloc, start.try_clone()?))?;
        }
        Ok(Copies {
            alloc,
            start,
            copies,
            sent: SentTables::new(alloc),
        })
    }

    /// How many copies there are. It takes no memory.
    pub fn count(&self) -> usize
        ensures { result ≡ length self.now.copies }
    {
        self.copies.len()
    }

    /// How many tables were sent. It takes no memory.
    pub fn sent_count(&self) -> usize
        ensures count { result ≡ length self.now.sent }
        ensures small { result < 2 ^ 63 }
    {
        self.sent.len()
    }

    /// The copy at a place, whose array is of its table. It takes no memory.
    pub fn copy(&self, at: usize) -> &Directory
        requires { at < length self.now.copies }
        ensures copy { slice_get self.now.copies at ≡ Some result.now.table }
        ensures array { HasArrayOf self.now.ward_bits result.now }
    {
        &self.copies[at].directory
    }

    /// The copy at a place takes a notice: at its prefix the greater entry stays. Where memory is refused, an
    /// `AllocError`, all is as before.
    pub fn take(&mut self, at: usize, notice: &Notice) -> Result<(), AllocError>
        requires { at < length self.old.copies }
        ensures ok { (own : TableMap) → slice_get self.old.copies at ≡ Some own → OnOk result (self.new ≡ record self.old { copies = slice_set self.old.copies at (table_with own notice.now) }) }
        ensures err { OnErr result (self.new ≡ self.old) }
    {
        let copy = &mut self.copies[at];
        copy.take(notice)
    }

    /// The table of the copy at a place is kept for good, behind those that were sent. It costs what the copy took since
    /// it last sent one. Where memory is refused, an `AllocError`, all is as before.
    pub fn send(&mut self, at: usize) -> Result<(), AllocError>
        requires { at < length self.old.copies }
        ensures ok { (own : TableMap) → slice_get self.old.copies at ≡ Some own → OnOk result (self.new ≡ record self.old { sent = self.old.sent ++ own ∷ [] }) }
        ensures err { OnErr result (self.new ≡ self.old) }
    {
        let copy = &mut self.copies[at];
        copy.send(&mut self.sent)
    }

    /// The copy at a place joins the table that was sent under another. It costs nothing that grows where the copy took
    /// that table before, and wasn't restarted since. Where memory is refused, an `AllocError`, all is as before.
    pub fn combine(&mut self, at: usize, place: usize) -> Result<(), AllocError>
        requires copy { at < length self.old.copies }
        requires sent { place < length self.old.sent }
        ensures ok { (own other : TableMap) → slice_get self.old.copies at ≡ Some own → slice_get self.old.sent place ≡ Some other
            → OnOk result (self.new ≡ record self.old { copies = slice_set self.old.copies at (table_join own other) }) }
        ensures err { OnErr result (self.new ≡ self.old) }
    {
        let first = self.sent.first(place);
        let copy = &mut self.copies[at];
        copy.combine(first, &self.sent)
    }

    /// The copy at a place is back at the start table. It costs nothing that grows where it is seen to be there. Where
    /// memory is refused, an `AllocError`, all is as before.
    pub fn restart(&mut self, at: usize) -> Result<(), AllocError>
        requires { at < length self.old.copies }
        ensures ok { OnOk result (self.new ≡ record self.old { copies = slice_set self.old.copies at self.old.start }) }
        ensures err { OnErr result (self.new ≡ self.old) }
    {
        let copy = &self.copies[at];
        if copy.is_at_start() {
            return Ok(());
        }
        let start = self.start.try_clone()?;
        self.copies[at] = HeldCopy::new(self.alloc, start);
        Ok(())
    }
}
