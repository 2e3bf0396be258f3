//! What holds of legal wards and of files: each function changes nothing, and its contract is a law.
ghost use Rattle.exh_placing.specs.Placed.{ToldTablesHavePlaces};
ghost use Rattle.exh_placing.specs.PlacingLaws.{LegalWardsHavePlaces, OrdersGivePages};
ghost use Rattle.exh_placing.specs.WardFile.{FilesOfWardsArePlaced, LegalWardsGiveFiles};
ghost use Rattle.exh_placing.specs.Writing.{HeadersBegin, PlacesBeginFile, PlacesFollow, PlacesMakeFile};

use exh_cells::{cells_and_tables_tell, slots_are_entries};

/// The pages of legal wards, in an order, have different low bounds, and the entries of the wards'
/// tables have their places among them. It takes no memory.
pub fn legal_wards_have_places()
    ensures { LegalWardsHavePlaces }
{}

/// The header's block and those of all places, one after the other, are the bytes of a file, and those of the first
/// places are a beginning of them; behind those of so many places comes what `write_place` writes. It takes no memory.
pub fn places_make_files()
    ensures header { HeadersBegin }
    ensures follow { PlacesFollow }
    ensures whole { PlacesMakeFile }
    ensures beginning { PlacesBeginFile }
{}

/// A file that has the pages of legal wards in an order, their counts, and cells that tell of their tables is legal; its
/// wards are those, and its cells tell of no other tables. It takes no memory.
pub fn legal_wards_give_files()
    ensures { LegalWardsGiveFiles }
{
    cells_and_tables_tell();
}

/// An order of wards' pages names a page at each place. It takes no memory.
pub fn orders_give_pages()
    ensures { OrdersGivePages }
{}

/// The entries of tables that cells tell of have their places among the cells' pages. It takes no memory.
pub fn told_tables_have_places()
    ensures { ToldTablesHavePlaces }
{
    slots_are_entries();
}

/// A file that has the pages of wards in an order, their counts, and cells that tell of their tables is one that has
/// bytes, where its header is one that a file may have and the wards' pages have images. It takes no memory.
pub fn files_of_wards_are_placed()
    ensures { FilesOfWardsArePlaced }
{}
