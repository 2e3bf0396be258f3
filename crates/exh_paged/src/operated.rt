use crate::Operation;
use exh_change::{Blocks, DirectFault};
use exh_commit::{BlockEdit, Changer};
use std::alloc::Global;

/// An operation over a page file of version 3, which gets the stamp where it changes.
#[derive(Drop)]
pub(crate) struct Operated<'o, O> {
    pub(crate) operation: &'o O,
    pub(crate) stamp: u64,
}

impl<O: Operation> Changer for Operated<'_, O> {
    ghost use Rattle.exh_paged.specs.CallChange.{MayMake, MayRefuse};

    type Answer = O::Answer;

    ghost allows = { λ it. MayMake (O.is_idle it.operation.now) (O.leaves it.operation.now) (O.answers it.operation.now) it.stamp };

    ghost refuses = { λ it. MayRefuse };

    fn change<B: Blocks>(
        &self,
        alloc: Global,
        blocks: &mut B,
    ) -> Result<(O::Answer, Vec<BlockEdit>), DirectFault> {
        self.operation.change(alloc, blocks, self.stamp)
    }
}
