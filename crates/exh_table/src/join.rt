ghost use Rattle.std.specs.Prelude.{◌≡◌};
ghost use Rattle.exh_table.specs.TableOrder.{IsTableUpTo, table_join};
ghost use Rattle.exh_table.specs.TableLemmas.{table_laws};

use crate::table::Table;
use exh_notice::Join;
use std::alloc::AllocError;

impl Join for Table {
    ghost IsAtMost = { IsTableUpTo };

    ghost join = { table_join };

    ghost laws = { table_laws };

    fn at_most(&self, other: &Table) -> bool {
        for (prefix, entry) in &self.entries {
            match other.get(*prefix) {
                Some(stands) if entry.at_most(&stands) => {}
                _ => return false,
            }
        }
        true
    }

    fn try_clone(&self) -> Result<Table, AllocError> {
        Ok(Table {
            alloc: self.alloc,
            entries: self.entries.clone()?,
        })
    }

    fn join_in(&mut self, other: &Table) -> Result<(), AllocError> {
        let mut joined = self.try_clone()?;
        for (prefix, entry) in &other.entries {
            joined.put_greater(*prefix, *entry)?;
        }
        *self = joined;
        Ok(())
    }
}
