ghost use Rattle.std.specs.Prelude.{◌≡◌, IsTrue};
ghost use Rattle.exh_codec.specs.declared.block.TheConstants.{BLOCK_LEN};
ghost use Rattle.sqlite_pager.specs.Pager.{state, visible, HasSpilled};

use sqlite_disk::Disk;
use sqlite_pager::Pager;

/// A file of whole blocks that was opened with its log. Between two calls nothing is written that isn't committed.
#[derive(Drop)]
pub struct PagedFile<D: Disk> {
    pub(crate) pager: Pager<D>,
    ghost sized: { (state pager).page_size ≡ BLOCK_LEN },
    ghost seen: { IsTrue (state pager).is_open → visible pager ≡ (state pager).committed },
    ghost logged: { IsTrue (state pager).is_ready → ¬ HasSpilled pager },
}
