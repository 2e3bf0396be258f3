ghost use Rattle.std.specs.Prelude.{◌≡◌, ◌≤◌, IfOk, OnOk, OnErr};
ghost use Rattle.std.specs.FinMap as map;
ghost use Rattle.exh_prefix.specs.declared.prefix.TheConstants.{LIMIT};
ghost use Rattle.exh_table.specs.Table.{raised, table_with};
ghost use Rattle.exh_table.specs.TableOrder.{table_join};
ghost use Rattle.exh_table.specs.TableWalk.{walk_of};
ghost use Rattle.exh_table.specs.Leaves.{leaves_of};
ghost use Rattle.exh_table.specs.Directory.{IsDepth};
ghost use Rattle.exh_table.specs.Below.{depth_of};
ghost use Rattle.exh_array.specs.Pointers.{HasArrayOf, IsArrayOf, NamesPageOf};

use crate::Pointers;
use exh_join::Join;
use exh_notice::{Entry, Notice};
use exh_prefix::{PageNo, Prefix};
use exh_table::Table;
use std::alloc::{AllocError, Global};
use std::marker::Model;

/// A copy of the directory: a table, and beside it the table's pointers in a file of some number of
/// ward bits, of which each look-up is made.
#[derive(Drop)]
pub struct Directory {
    table: Table,
    pointers: Pointers,
}

impl Model for Directory {
    ghost use Rattle.std.specs.Prelude.{◌≤◌};
    ghost use Rattle.std.specs.Coded.{codes};
    ghost use Rattle.exh_table.specs.Table.{coded_table};
    ghost use Rattle.exh_prefix.specs.declared.prefix.TheConstants.{LIMIT};
    ghost use Rattle.exh_array.specs.Pointers.{DirectoryState, HasArrayOf};

    ghost Value = { DirectoryState };

    ghost coded = { Prim.hlevel (codes, coded_table) };

    ghost view = { λ a. record { table = a.table; pointers = a.pointers } };

    ghost invariant = { λ a. HasArrayOf a.pointers.ward_bits (record { table = a.table; pointers = a.pointers }) × (a.pointers.ward_bits ≤ LIMIT) };
}

impl Directory {
    /// The directory with no entry, in a file of so many ward bits, at most `LIMIT`. An `AllocError`
    /// where memory is refused.
    pub fn new(alloc: Global, ward_bits: u8) -> Result<Directory, AllocError>
        requires { ward_bits ≤ LIMIT }
        ensures table { IfOk result (λ directory. directory.table ≡ map.empty) }
        ensures array { IfOk result (HasArrayOf ward_bits) }
    {
        Ok(Directory {
            table: Table::new(alloc),
            pointers: Pointers::new(alloc, ward_bits)?,
        })
    }

    /// The file's ward bits, at most `LIMIT`. It takes no memory.
    pub fn ward_bits(&self) -> u8
        ensures bits { result ≡ self.now.pointers.ward_bits }
        ensures limit { result ≤ LIMIT }
    {
        self.pointers.ward_bits()
    }

    /// The table. It takes no memory.
    pub fn table(&self) -> &Table
        ensures { result.now ≡ self.now.table }
    {
        &self.table
    }

    /// The table's pointers. It takes no memory.
    pub fn pointers(&self) -> &Pointers
        ensures pointers { result.now ≡ self.now.pointers }
        ensures array { IsArrayOf self.now.table result.now }
    {
        &self.pointers
    }

    /// The page that the table names for a pseudokey (Fagin et al. 1979): one look at a pointer. It
    /// takes no memory.
    pub fn walk(&self, pseudokey: u64) -> PageNo
        ensures pointer { NamesPageOf self.now.pointers pseudokey result }
        ensures page { result ≡ (walk_of self.now.table self.now.pointers.ward_bits pseudokey).page }
    {
        self.pointers.page(pseudokey)
    }

    /// The depth of the directory: the greatest length of a leaf, over all wards (Fagin et al.
    /// 1979). It is the pointers', and takes no memory.
    pub fn depth(&self) -> u8
        ensures pointers { result ≡ self.now.pointers.depth }
        ensures depth { IsDepth (leaves_of self.now.table self.now.pointers.ward_bits) result }
        ensures computed { result ≡ depth_of self.now.table self.now.pointers.ward_bits }
    {
        self.pointers.depth()
    }

    /// Takes a notice: at its prefix the greater entry stays, and the pointers are brought up to the
    /// table. It answers what stood there. Where memory is refused, an `AllocError`, the directory is
    /// as before.
    pub fn take(&mut self, notice: &Notice) -> Result<Option<Entry>, AllocError>
        ensures stood { IfOk result (λ stood. stood ≡ map.get self.old.table notice.now.prefix) }
        ensures ok { OnOk result (self.new.table ≡ table_with self.old.table notice.now) }
        ensures array { HasArrayOf self.old.pointers.ward_bits self.new }
        ensures err { OnErr result (self.new ≡ self.old) }
    {
        self.put_greater(notice.prefix, notice.entry())
    }

    /// Joins another table. Where memory is refused, an `AllocError`, the directory is as before; none is asked for where
    /// the other table tells nothing new.
    pub fn join_in(&mut self, other: &Table) -> Result<(), AllocError>
        ensures ok { OnOk result (self.new.table ≡ table_join self.old.table other.now) }
        ensures array { HasArrayOf self.old.pointers.ward_bits self.new }
        ensures err { OnErr result (self.new ≡ self.old) }
    {
        // A table that tells nothing new asks for no copy.
        if other.at_most(&self.table) {
            return Ok(());
        }
        let mut joined = self.try_clone()?;
        // What stands below a prefix comes first, so that it is pointed to once.
        let mut entries = other.entries();
        while let Some((prefix, entry)) = entries.next_back() {
            joined.put_greater(*prefix, *entry)?;
        }
        *self = joined;
        Ok(())
    }

    /// A directory equal to this one. An `AllocError` where memory is refused.
    pub fn try_clone(&self) -> Result<Directory, AllocError>
        ensures { IfOk result (λ directory. directory ≡ self.now) }
    {
        Ok(Directory {
            table: self.table.try_clone()?,
            pointers: self.pointers.try_clone()?,
        })
    }

    // Takes an entry at a prefix, and answers what stood there.
    fn put_greater(&mut self, prefix: Prefix, entry: Entry) -> Result<Option<Entry>, AllocError>
        ensures stood { IfOk result (λ stood. stood ≡ map.get self.old.table prefix) }
        ensures ok { OnOk result (self.new.table ≡ raised self.old.table prefix entry) }
        ensures array { HasArrayOf self.old.pointers.ward_bits self.new }
        ensures err { OnErr result (self.new ≡ self.old) }
    {
        let stood = self.table.put_greater(prefix, entry)?;
        if let Err(error) = self.pointers.update(&self.table, prefix) {
            self.table.put_back(prefix, stood);
            return Err(error);
        }
        Ok(stood)
    }
}
