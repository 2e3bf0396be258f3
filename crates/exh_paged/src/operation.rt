ghost use Rattle.std.specs.Prelude.{◌≡◌, ℕ, List, Some, MatchResult};
ghost use Rattle.exh_table.specs.Table.{TableMap};
ghost use Rattle.exh_page.specs.KeyMap.{KeyMap};
ghost use Rattle.exh_format.specs.Reading.{AreBytes};
ghost use Rattle.exh_cells.specs.LegalPlaced.{IsLegalPlacedFile};
ghost use Rattle.exh_cells.specs.PlacedFile.{PlacedFile};
ghost use Rattle.exh_change.specs.DirectLaws.{IsOtherFault};
ghost use Rattle.exh_paged.specs.CallChange.{IsMade};

use exh_change::{Blocks, DirectFault};
use exh_commit::BlockEdit;
use std::alloc::Global;

/// What a page file of version 3 may be asked: a call, calls as one change, or a put that has a condition.
pub trait Operation {
    /// What is answered.
    type Answer: Drop;

    /// The pairs that it leaves of those of a legal page file.
    ghost leaves: { Self → PlacedFile → KeyMap };

    /// This is its answer over a legal page file that has this stamp behind it.
    ghost answers: { Self → PlacedFile → ℕ → Self.Answer → Type 0 };

    /// It changes no block, whatever the file has.
    ghost is_idle: { Self → Type 0 };

    /// The answer, and the blocks of a file that change, the first of which is written first, of which the header's has the
    /// new stamp; none where the map stays. Nothing is written. It takes memory for what it reads and for the blocks.
    ///
    /// `File`, `Astray`: what it reads is no legal page file. `Read`: a block couldn't be read. `Memory`: a growth was
    /// refused.
    fn change<B: Blocks>(
        &self,
        alloc: Global,
        blocks: &mut B,
        stamp: u64,
    ) -> Result<(Self::Answer, Vec<BlockEdit>), DirectFault>
        ensures { (file : PlacedFile) (tables : List TableMap) (bytes : List ℕ) → B.known blocks.old ≡ Some bytes → AreBytes bytes → IsLegalPlacedFile file tables bytes
            → MatchResult result (λ made. IsMade (is_idle self.now) file bytes (leaves self.now file) (answers self.now file) stamp made.0 made.1.items) IsOtherFault };
}
