//! A call as an operation.

use crate::Operation;
use exh_calls::{Call, Reply};
use exh_change::{Blocks, DirectFault, change};
use exh_commit::BlockEdit;
use std::alloc::Global;

// The reply is the map machine's. A get is idle.
impl Operation for Call {
    ghost use Rattle.std.specs.Prelude.{◌≡◌, ℕ, List};
    ghost use Rattle.exh_calls.specs.declared.call.Call.TheVariants.{Get};
    ghost use Rattle.exh_change.specs.ChangeLaws.{map_then, reply_in};

    type Answer = Reply;

    ghost leaves = { λ call file. map_then file call };

    ghost answers = { λ call file stamp reply. reply ≡ reply_in file call };

    ghost is_idle = { λ call. (key : List ℕ) × (call ≡ Get key) };

    fn change<B: Blocks>(
        &self,
        alloc: Global,
        blocks: &mut B,
        stamp: u64,
    ) -> Result<(Reply, Vec<BlockEdit>), DirectFault> {
        let changed = change(alloc, blocks, self, stamp)?;
        Ok((changed.reply, changed.edits))
    }
}
