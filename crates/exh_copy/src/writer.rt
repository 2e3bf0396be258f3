ghost use Rattle.std.specs.Prelude.{◌≡◌, [], ◌∷◌, ◌++◌, drop, length, IfOk, IsOk, OnOk, OnErr};
ghost use Rattle.left_right.specs.Sides.{view};
ghost use Rattle.exh_array.specs.Pointers.{HasArrayOf};
ghost use Rattle.exh_copy.specs.Additions.{table_after};
ghost use Rattle.exh_copy.specs.Rule.{IsAfter};
ghost use Rattle.exh_copy.specs.declared.addition.Addition.TheVariants.{Take, Combine};

use crate::name::CopyName;
use crate::published::Published;
use crate::rule::{Appends, Batch, Learns, Rule, Tells, View};
use crate::{Addition, NoPlace, Start, Told};
use core::mem::replace_with;
use exh_array::Directory;
use exh_join::Join;
use exh_notice::Notice;
use exh_table::Table;
use left_right::writer::Writer;
use std::alloc::AllocError;
use std::marker::{Brand, Model};
use std::sync::Wait;
use std::sync::ledger::Blank;

/// The writer of a copy of the directory. Contracts see the copy's name, the additions that it has
/// published and those that are pending. It can't be let go: end it by `close`.
pub struct CopyWriter<S: Start> {
    pub(crate) writer: Writer<Published, Addition, View, Rule<S>>,
    // By which its readers, and what it hands on, are known from those of other copies.
    pub(crate) name: Blank,
}

impl<S: Start> Model for CopyWriter<S> {
    ghost use Rattle.std.specs.Prelude.{drop};
    ghost use Rattle.std.specs.Coded.{codes};
    ghost use Rattle.exh_table.specs.Table.{coded_table};
    ghost use Rattle.left_right.specs.Sides.{view as held_in};
    ghost use Rattle.exh_copy.specs.Additions.{Additions};
    ghost use Rattle.exh_copy.specs.Rule.{IsAfter};

    ghost Value = { Additions };

    ghost coded = { Prim.hlevel (codes, coded_table) };

    ghost view = { λ a. record { name = a.name.name; published = held_in a.writer.desk.place; pending = drop a.writer.behind a.writer.log.items } };

    ghost invariant = { λ a. IsAfter S.table S.ward_bits a.writer.desk.shown.value (held_in a.writer.desk.place) };
}

impl<S: Start> CopyWriter<S> {
    /// Takes a notice, which readers don't see before it is published. Where memory is refused, an
    /// `AllocError`, the copy is as before.
    pub fn take(&mut self, notice: &Notice) -> Result<(), AllocError>
        ensures ok { OnOk result (self.new ≡ record self.old { pending = self.old.pending ++ Take notice.now ∷ [] }) }
        ensures err { OnErr result (self.new ≡ self.old) }
    {
        self.append(Addition::Take(*notice))
    }

    /// Joins another copy's table, of which readers see nothing before it is published. Where memory is
    /// refused, an `AllocError`, the copy is as before.
    pub fn combine(&mut self, table: &Table) -> Result<(), AllocError>
        ensures ok { OnOk result (self.new ≡ record self.old { pending = self.old.pending ++ Combine table.now ∷ [] }) }
        ensures err { OnErr result (self.new ≡ self.old) }
    {
        self.append(Addition::Combine(table.try_clone()?))
    }

    fn append(&mut self, addition: Addition) -> Result<(), AllocError>
        ensures ok { OnOk result (self.new ≡ record self.old { pending = self.old.pending ++ addition ∷ [] }) }
        ensures err { OnErr result (self.new ≡ self.old) }
    {
        self.writer.append(addition).map_err(|_| AllocError)
    }

    /// Publishes all that is pending, in order and at once. It waits for readers that still look at
    /// what was published before the last time; where nothing is pending it does nothing. Where memory is
    /// refused, an `AllocError`, what is published and what is pending stay, and a later call tries again.
    pub fn publish<R: Wait>(&mut self, rt: &R) -> Result<(), AllocError>
        ensures ok { OnOk result (self.new ≡ record self.old { published = self.old.published ++ self.old.pending; pending = [] }) }
        ensures err { OnErr result (self.new ≡ self.old) }
        ensures nothing { self.old.pending ≡ [] → IsOk result × (self.new ≡ self.old) }
    {
        if !self.writer.has_pending_operations() {
            return Ok(());
        }
        replace_with(&mut self.writer, rt, published_all::<S, R>)
    }

    /// How many additions it has published.
    pub fn additions(&self) -> u64
        ensures { result ≡ length self.now.published }
    {
        self.writer.published().additions
    }

    /// What has been published by now, for a reader of the copy to learn. It takes no memory. Refused:
    /// `NoPlace`, where each place for a reader is in use. The copy is as before.
    pub fn tell(&mut self) -> Result<Told<S>, NoPlace>
        ensures handed { IfOk result (λ handed. handed ≡ record { name = self.old.name; additions = self.old.published }) }
        ensures same { self.new ≡ self.old }
    {
        let mut reader = self.writer.factory().reader().map_err(|_| NoPlace)?;
        reader.learn::<Learns>(self.writer.tell::<Tells>());
        let additions = self.additions();
        Ok(Told {
            reader,
            additions,
            name: CopyName::of(&self.name),
        })
    }

    /// Ends the copy, once readers have left it, and gives the directory that was published. What is
    /// pending is dropped, and no later look names a page.
    pub fn close<R: Wait>(self, rt: &R) -> Directory
        ensures table { result.table ≡ table_after S.table self.published }
        ensures array { HasArrayOf S.ward_bits result }
    {
        let CopyWriter { writer, name: _ } = self;
        let Published { directory, .. } = Box::into_inner(writer.take(rt));
        directory
    }
}

// Publishes all that is pending.
fn published_all<S: Start, R: Wait>(
    writer: Writer<Published, Addition, View, Rule<S>>,
    rt: &R,
) -> (
    Writer<Published, Addition, View, Rule<S>>,
    Result<(), AllocError>,
)
    requires { IsAfter S.table S.ward_bits writer.desk.shown.value (view writer.desk.place) }
    ensures after { IsAfter S.table S.ward_bits result.0.desk.shown.value (view result.0.desk.place) }
    ensures ok { OnOk result.1 ((view result.0.desk.place ≡ view writer.desk.place ++ drop writer.behind writer.log.items) × (drop result.0.behind result.0.log.items ≡ [])) }
    ensures err { OnErr result.1 ((view result.0.desk.place ≡ view writer.desk.place) × (drop result.0.behind result.0.log.items ≡ drop writer.behind writer.log.items)) }
{
    published_batch::<S, Brand, R>(writer, rt)
}

// The same, where the batch is what is pending.
fn published_batch<S: Start, B: Batch, R: Wait>(
    writer: Writer<Published, Addition, View, Rule<S>>,
    rt: &R,
) -> (
    Writer<Published, Addition, View, Rule<S>>,
    Result<(), AllocError>,
)
    requires after { IsAfter S.table S.ward_bits writer.desk.shown.value (view writer.desk.place) }
    requires batch { B.additions ≡ drop writer.behind writer.log.items }
    ensures after { IsAfter S.table S.ward_bits result.0.desk.shown.value (view result.0.desk.place) }
    ensures ok { OnOk result.1 ((view result.0.desk.place ≡ view writer.desk.place ++ B.additions) × (drop result.0.behind result.0.log.items ≡ [])) }
    ensures err { OnErr result.1 ((view result.0.desk.place ≡ view writer.desk.place) × (drop result.0.behind result.0.log.items ≡ drop writer.behind writer.log.items)) }
{
    writer.publish_as::<Appends<B>, R>(rt)
}
