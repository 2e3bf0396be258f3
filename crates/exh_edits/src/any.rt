ghost use Rattle.std.specs.Prelude.{◌≡◌, ℕ, List, Some, IfOk, IfErr};
ghost use Rattle.exh_format.specs.HeaderTests.{IsOfVersion};
ghost use Rattle.exh_cells.specs.StampedHeader.{placed_format};
ghost use Rattle.exh_direct.specs.KnownBlocks.{ReadsOnce};
ghost use Rattle.exh_edits.specs.AnyAnswer.{FindsAny, IsOfLegal, RefusesAny};
ghost use Rattle.exh_edits.specs.PlacedAnswer.{ReadsFew};

use crate::find_placed;
use exh_cells::is_placed;
use exh_codec::BLOCK_LEN;
use exh_direct::{Blocks, DirectFault, find, read_block};
use exh_page::{Key, Value};
use std::alloc::Global;

/// What a page file of any version has at a key, `None` where it hasn't the key. The header's block is read first, and says
/// the version; behind it the blocks that [`find_placed`] reads of a file of version 3, and those that [`find`] reads of any
/// other. None is read twice, and of version 3 at most 22 are.
///
/// The errors are those of the two. `File` with `Truncated`: there is no whole header's block.
pub fn find_any<B: Blocks>(
    alloc: Global,
    blocks: &mut B,
    key: &Key,
) -> Result<Option<Value>, DirectFault>
    ensures found { IfOk result (FindsAny (B.known blocks.old) (B.whole blocks.old) key.now (B.reads blocks.old) (B.reads blocks.new)) }
    ensures refused { IfErr result (RefusesAny (B.known blocks.old) (B.whole blocks.old) key.now (B.reads blocks.old) (B.reads blocks.new)) }
    ensures once { ReadsOnce (B.reads blocks.old) (B.reads blocks.new) }
    ensures few { (bytes : List ℕ) → B.known blocks.old ≡ Some bytes → IsOfVersion placed_format bytes → ReadsFew (B.reads blocks.old) (B.reads blocks.new) }
    ensures legal { IsOfLegal (B.known blocks.old) key.now (B.reads blocks.old) (B.reads blocks.new) result }
{
    let count = blocks.count();
    let mut first = [0; BLOCK_LEN];
    read_block(blocks, count, 0, &mut first)?;
    if is_placed(&first) {
        find_placed(alloc, blocks, count, &first, key)
    } else {
        find(alloc, blocks, count, &first, key)
    }
}
