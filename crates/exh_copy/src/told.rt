use crate::Start;
use crate::name::CopyName;
use crate::published::Published;
use crate::rule::{Rule, View};
use left_right::reader::Reader;
use std::marker::Model;

/// What a writer tells: all that it had published, by the name of its copy. It takes up a place for a
/// reader until it is learned or dropped, and may go to another thread.
#[derive(Drop)]
pub struct Told<S: Start> {
    pub(crate) reader: Reader<Published, View, Rule<S>>,
    pub(crate) additions: u64,
    // Of which copy.
    pub(crate) name: CopyName,
}

impl<S: Start> Model for Told<S> {
    ghost use Rattle.std.specs.Prelude.{◌≡◌, length};
    ghost use Rattle.std.specs.Coded.{codes};
    ghost use Rattle.exh_table.specs.Table.{coded_table};
    ghost use Rattle.exh_copy.specs.Additions.{Held};
    ghost use Rattle.left_right.specs.Sides.{view as held_in};

    ghost Value = { Held };

    ghost coded = { Prim.hlevel (codes, coded_table) };

    ghost view = { λ a. record { name = a.name.name; additions = held_in a.reader.place } };

    ghost invariant = { λ a. a.additions ≡ length (held_in a.reader.place) };
}
