//! What edits of blocks make of a file: each function changes nothing, and its contract is a law.
ghost use Rattle.exh_edits.specs.EditLaws.{BlocksAreCounted, CellsChange, HeadersChange, HeadersStand, PagesAreAdded, PagesChange, PagesStand, WalkBlocksStand};
ghost use Rattle.exh_edits.specs.EditLists.{EditedBlocksAreFound, EditsArePushed, EditsArePut, EditsCommute, EditsReplace, UneditedAreKept};
ghost use Rattle.exh_edits.specs.EditsKeepOthers.{BlockStands, LengthsGrow, OthersStand};

use exh_cells::walk_blocks_pass;
use exh_codec::images_are_blocks;

/// After an edit the block stands at its place, and every other whole block where it stood; the bytes are as long as before,
/// or end behind the block. It takes no memory.
pub fn edited_blocks_stand()
    ensures block { BlockStands }
    ensures others { OthersStand }
    ensures length { LengthsGrow }
{}

/// The later of two edits of a place replaces the earlier, and edits of two places may be made in either order. It takes no
/// memory.
pub fn edits_commute()
    ensures same_place { EditsReplace }
    ensures two_places { EditsCommute }
{}

/// Edits one after the other, at most one of a place: the bytes have their blocks, and elsewhere what they had. An edit more
/// stands behind the others, and one of a place that has an edit takes that one's place. It takes no memory.
pub fn edit_lists_stand()
    ensures found { EditedBlocksAreFound }
    ensures kept { UneditedAreKept }
    ensures pushed { EditsArePushed }
    ensures put { EditsArePut }
{}

/// Where the header's block, those of the pages and the walk blocks of a file stand, and how many there are. It takes no
/// memory.
pub fn blocks_stand()
    ensures headers { HeadersStand }
    ensures pages { PagesStand }
    ensures walk_blocks { WalkBlocksStand }
    ensures count { BlocksAreCounted }
{
    images_are_blocks();
    walk_blocks_pass();
}

/// A file whose first block is replaced by that of another header, of as many pages and the same keyer, is the file with
/// that header. It takes no memory.
pub fn headers_change()
    ensures { HeadersChange }
{
    images_are_blocks();
    walk_blocks_pass();
}

/// A file in which the block of a page is replaced by that of another page is the file with that page. It takes no memory.
pub fn pages_change()
    ensures { PagesChange }
{
    images_are_blocks();
    walk_blocks_pass();
}

/// A file in which the walk block of a page's group is replaced by one with another cell of the page is the file with that
/// cell. It takes no memory.
pub fn cells_change()
    ensures { CellsChange }
{
    images_are_blocks();
    walk_blocks_pass();
}

/// A file whose header counts a page more, with the walk block of the new page's group and the page's block behind the
/// others, is the file with that page. It takes no memory.
pub fn pages_are_added()
    ensures { PagesAreAdded }
{
    images_are_blocks();
    walk_blocks_pass();
}
