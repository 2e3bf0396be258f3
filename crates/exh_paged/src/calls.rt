use crate::{Answered, Operation};
use exh_calls::Call;
use exh_change::{Blocks, DirectFault, change_all};
use exh_commit::BlockEdit;
use std::alloc::Global;

/// Calls that are answered one after the other, and are one change.
#[derive(Clone, Copy)]
pub(crate) struct Calls<'c> {
    pub(crate) calls: &'c [Call],
}

// The replies are the map machine's. Without a call it is idle.
impl Operation for Calls<'_> {
    ghost use Rattle.std.specs.Prelude.{◌≡◌, []};
    ghost use Rattle.exh_change.specs.Batch.{map_then_all};
    ghost use Rattle.exh_paged.specs.CallsChange.{IsAnswerOfAll};

    type Answer = Answered;

    ghost leaves = { λ it file. map_then_all file it.calls.now };

    ghost answers = { λ it file. IsAnswerOfAll file it.calls.now };

    ghost is_idle = { λ it. it.calls.now ≡ [] };

    fn change<B: Blocks>(
        &self,
        alloc: Global,
        blocks: &mut B,
        stamp: u64,
    ) -> Result<(Answered, Vec<BlockEdit>), DirectFault> {
        let changed = change_all(alloc, blocks, self.calls, stamp)?;
        let answered = Answered {
            replies: changed.replies,
            stamp: changed.stamp,
        };
        Ok((answered, changed.edits))
    }
}
