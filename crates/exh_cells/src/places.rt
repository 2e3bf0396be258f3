//! Where the blocks of a page file of version 3 stand, counted from 0, the header's.
ghost use Rattle.std.specs.Prelude.{◌≡◌, ◌≤◌, ◌^◌};
ghost use Rattle.exh_cells.specs.Places.{end_block_of, group_in, page_block_of, walk_block_of};

/// The most pages of a group.
pub const GROUP_PAGES: u32 = 24;

/// The group, from 0, of the page at a place.
pub fn group_of(place: u32) -> u32
    ensures { result ≡ group_in place }
{
    place / GROUP_PAGES
}

/// The block of the page at a place, of at most 2^20 places.
pub fn page_block(place: u32) -> u32
    requires { place ≤ 2 ^ 20 }
    ensures { result ≡ page_block_of place }
{
    2 + place + group_of(place)
}

/// The walk block of a group, of at most 2^20 groups.
pub fn walk_block(group: u32) -> u32
    requires { group ≤ 2 ^ 20 }
    ensures { result ≡ walk_block_of group }
{
    1 + (GROUP_PAGES + 1) * group
}

/// How many blocks a file of so many pages has, of at most 2^20 pages.
pub fn end_block(pages: u32) -> u32
    requires { pages ≤ 2 ^ 20 }
    ensures { result ≡ end_block_of pages }
{
    1 + pages + pages.div_ceil(GROUP_PAGES)
}
