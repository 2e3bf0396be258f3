ghost use Rattle.std.specs.Prelude.{◌≡◌, length, IfSome, IfNone};
ghost use Rattle.exh_table.specs.TableOrder.{IsTableUpTo};
ghost use Rattle.exh_table.specs.TableWalk.{walk_of};
ghost use Rattle.exh_copy.specs.Additions.{BeginsWith, longest, table_after};
ghost use Rattle.left_right.specs.Sides.{view};

use crate::name::CopyName;
use crate::published::Published;
use crate::rule::{Looks, Rule, View};
use crate::{Start, Told};
use core::mem::replace_with;
use exh_prefix::PageNo;
use left_right::reader::Reader;
use std::marker::Model;

/// Looks pages up in a copy of the directory, with no lock. Contracts see of which copy it is, and the
/// published additions that it holds.
#[derive(Drop)]
pub struct CopyReader<S: Start> {
    pub(crate) reader: Reader<Published, View, Rule<S>>,
    // How many additions it holds.
    pub(crate) additions: u64,
    // Of which copy.
    pub(crate) name: CopyName,
}

impl<S: Start> Model for CopyReader<S> {
    ghost use Rattle.std.specs.Prelude.{◌≡◌, length};
    ghost use Rattle.std.specs.Coded.{codes};
    ghost use Rattle.exh_table.specs.Table.{coded_table};
    ghost use Rattle.exh_copy.specs.Additions.{Held};
    ghost use Rattle.left_right.specs.Sides.{view as held_in};

    ghost Value = { Held };

    ghost coded = { Prim.hlevel (codes, coded_table) };

    ghost view = { λ a. record { name = a.name.name; additions = held_in a.reader.place } };

    ghost invariant = { λ a. a.additions ≡ length (held_in a.reader.place) };
}

impl<S: Start> CopyReader<S> {
    /// The page that the copy names for a pseudokey (Fagin et al. 1979): one look at a pointer of the
    /// directory that is published, all of whose additions the reader then holds. It takes no memory
    /// and waits for nobody. `None` where `left_right` gives no guard, as where the writer is closed.
    pub fn look(&mut self, pseudokey: u64) -> Option<PageNo>
        ensures holds { IfSome result (λ _. BeginsWith self.new.additions self.old.additions) }
        ensures page { IfSome result (λ page. page ≡ (walk_of (table_after S.table self.new.additions) S.ward_bits pseudokey).page) }
        ensures forward { IsTableUpTo (table_after S.table self.old.additions) (table_after S.table self.new.additions) }
        ensures none { IfNone result (self.new ≡ self.old) }
        ensures name { self.new.name ≡ self.old.name }
    {
        let (additions, page) = replace_with(&mut self.reader, pseudokey, looked::<S>)?;
        self.additions = additions;
        Some(page)
    }

    /// Takes in what the writer of its copy handed on, where that is at least as much as the reader holds. It
    /// takes no memory.
    pub fn learn(&mut self, handed: Told<S>)
        requires own { handed.name ≡ self.old.name }
        ensures { self.new ≡ record self.old { additions = longest self.old.additions handed.additions } }
    {
        if handed.additions < self.additions {
            return;
        }
        let Told {
            reader,
            additions,
            name: _,
        } = handed;
        self.reader = reader;
        self.additions = additions;
    }
}

// One look by a reader: how many additions it then holds, and the page.
fn looked<S: Start>(
    reader: Reader<Published, View, Rule<S>>,
    pseudokey: u64,
) -> (Reader<Published, View, Rule<S>>, Option<(u64, PageNo)>)
    ensures holds { IfSome result.1 (λ _. BeginsWith (view result.0.place) (view reader.place)) }
    ensures additions { IfSome result.1 (λ seen. seen.0 ≡ length (view result.0.place)) }
    ensures page { IfSome result.1 (λ seen. seen.1 ≡ (walk_of (table_after S.table (view result.0.place)) S.ward_bits pseudokey).page) }
    ensures none { IfNone result.1 (view result.0.place ≡ view reader.place) }
{
    match reader.enter_as::<Looks<S>>() {
        Ok(reading) => {
            let shown = reading.get();
            let seen = (shown.additions, shown.directory.walk(pseudokey));
            (reading.leave(), Some(seen))
        }
        Err(reader) => (reader, None),
    }
}
