ghost use Rattle.std.specs.Prelude.{◌≡◌, List, [], ◌++◌};
ghost use Rattle.exh_copy.specs.declared.addition.Addition.{Addition as AdditionValue};
ghost use Rattle.exh_copy.specs.Rule.{IsKept, IsSeen};

use crate::published::Published;
use crate::{Addition, Start};
use atomic_table::{Join, Split};
use crossbeam_utils::rule::{Outcome, Protocol};
use std::collections::LinkedList;
use std::marker::{Brand, PhantomData};

/// What a reader or the writer holds: a beginning of the published list. No value of it is made.
pub type View = LinkedList<Addition>;

/// The rule over a copy: what is published is the start with the writer's list applied, and what
/// each reader holds is a beginning of that list.
pub struct Rule<S>(PhantomData<S>);

impl<S: Start> Protocol<Published, View> for Rule<S> {
    ghost holds = { IsKept S.table S.ward_bits };

    ghost first = { [] };
}

/// A look: the reader holds the whole published list, of which what it held is a beginning.
pub struct Looks<S>(PhantomData<S>);

impl<S: Start> Outcome<Published, View> for Looks<S> {
    ghost then = { λ held _ shown now. IsSeen S.table S.ward_bits held shown now };
}

/// The additions that one publish appends.
pub trait Batch {
    ghost additions: { List AdditionValue };
}

/// A publish: the writer's list grows by the batch.
pub struct Appends<B>(PhantomData<B>);

impl<B: Batch> Outcome<Published, View> for Appends<B> {
    ghost then = { λ list _ _ now. now ≡ list ++ B.additions };
}

/// Telling: the token has the writer's list, which the writer keeps.
pub struct Tells;

impl Split<View> for Tells {
    ghost left = { λ list. list };

    ghost right = { λ list. list };
}

/// Learning: who held nothing holds the token's list.
pub struct Learns;

impl Join<View> for Learns {
    ghost both = { λ _ list. list };

    ghost spent = { [] };
}

// By which a call picks its batch.
impl Batch for Brand {
    ghost additions = { [] };
}
