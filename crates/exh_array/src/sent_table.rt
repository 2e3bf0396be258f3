ghost use Rattle.std.specs.Prelude.{◌≡◌, ℕ, List, IfOk, OnOk, OnErr};
ghost use Rattle.std.specs.FinMap as map;
ghost use Rattle.exh_table.specs.Table.{TableMap};
ghost use Rattle.exh_table.specs.TableOrder.{IsTableUpTo, table_join};
ghost use Rattle.exh_array.specs.Sent.{IsBefore, base_in};

use exh_join::Join;
use exh_table::Table;
use std::alloc::{AllocError, Global};
use std::mem;

/// So many entries more than the table has may be told twice before it is kept whole.
const SPARE: usize = 8;

/// A table that was sent, kept by what it has beyond one that was sent before.
#[derive(Drop)]
pub(crate) struct SentTable {
    /// The place of that one among the sent tables; where there is none, it is the start table.
    pub(crate) since: Option<usize>,
    /// What this one tells beyond it.
    pub(crate) entries: Table,
    /// How many entries it has, with those that it goes on from.
    pub(crate) told: usize,
}

impl SentTable {
    /// A copy's own table as it is kept, by the news that it has beyond the one that it goes on from; these are none
    /// then. Where that one and those before have many more entries than the table, as where prefixes were told often,
    /// it is kept whole. Where memory is refused, an `AllocError`, the news are as before.
    pub(crate) fn new(
        alloc: Global,
        since: Option<usize>,
        told: usize,
        news: &mut Table,
        own: &Table,
    ) -> Result<SentTable, AllocError>
        ensures before { (bound : ℕ) → IsBefore bound since → IfOk result (λ sent. IsBefore bound sent.since) }
        ensures own { (start : TableMap) (tables : List TableMap) → IsTableUpTo start own.now → own.now ≡ table_join (base_in start tables since) news.old
            → IfOk result (λ sent. own.now ≡ table_join (base_in start tables sent.since) sent.entries) }
        ensures none { OnOk result (news.new ≡ map.empty) }
        ensures err { OnErr result (news.new ≡ news.old) }
    {
        let told = told.saturating_add(news.entries().len());
        let whole = own.entries().len();
        if told / 2 > whole.saturating_add(SPARE) {
            let entries = own.try_clone()?;
            *news = Table::new(alloc);
            return Ok(SentTable {
                since: None,
                entries,
                told: whole,
            });
        }
        let entries = mem::replace(news, Table::new(alloc));
        Ok(SentTable {
            since,
            entries,
            told,
        })
    }
}
