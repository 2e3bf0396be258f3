ghost use Rattle.std.specs.Prelude.{ℕ, List, IfErr, IfOk, IfSome};
ghost use Rattle.exh_edits.specs.declared.DirectFault.{DirectFault as Fault};
ghost use Rattle.exh_edits.specs.declared.block_edit.BlockEdit.{BlockEdit as Edit};

use exh_edits::{BlockEdit, Blocks, DirectFault};
use std::alloc::Global;

/// What is to be done with a file: from its blocks it makes edits of them, and an answer.
pub trait Changer {
    type Answer: Drop;

    /// These edits may be made of these bytes, with this answer.
    ghost allows: { Self → List ℕ → Self.Answer → List Edit → Type 0 };

    /// These bytes may be refused so.
    ghost refuses: { Self → List ℕ → Fault → Type 0 };

    /// The edits of a file, the first of which is made first, and the answer. Nothing is written.
    fn change<B: Blocks>(
        &self,
        alloc: Global,
        blocks: &mut B,
    ) -> Result<(Self::Answer, Vec<BlockEdit>), DirectFault>
        ensures made { IfOk result (λ made. IfSome (B.known blocks.old) (λ bytes. allows self.now bytes made.0 made.1.items)) }
        ensures refused { IfErr result (λ fault. IfSome (B.known blocks.old) (λ bytes. refuses self.now bytes fault)) };
}
