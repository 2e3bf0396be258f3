ghost use Rattle.std.specs.Prelude.{◌≡◌, ◌≤◌, ◌<◌, ◌+◌, ◌++◌, ◌^◌, length};
ghost use Rattle.byteorder.specs.Endian.{big_bytes};
ghost use Rattle.exh_notice.specs.NoticeImages.{items};
ghost use Rattle.exh_codec.specs.declared.block.TheConstants.{CONTENT_LEN};
ghost use Rattle.exh_cells.specs.WalkImage.{IsReadSlot, slot_bytes};

use arrayvec::ArrayVec;
use byteorder::{BigEndian, ByteOrder};
use exh_codec::CONTENT_LEN;

/// How many slots a cell has, one for each length of an entry's prefix.
pub const SLOTS: usize = 20;

/// How many bytes a cell has in its walk block.
pub const CELL_LEN: usize = 4 + 8 * SLOTS;

/// What a cell says of the entry at one length of a prefix.
#[derive(Clone, Copy)]
pub struct Slot {
    /// The entry's number, odd for a split, even for a merge; 0 where there is no entry.
    pub number: u32,
    /// The place of the page that a split made and a merge left: 0 where there is no entry.
    pub page: u32,
}

/// What a walk block says of a page.
#[derive(Clone, Copy)]
pub struct Cell {
    /// The page's number in its ward.
    pub number: u32,
    /// For each length, from 0 on, the entry at the prefix of that length whose low bound is the page's.
    pub slots: [Slot; SLOTS],
}

impl Cell {
    ghost use Rattle.std.specs.Prelude.{◌≡◌, ◌≤◌, ◌+◌, ◌++◌, length};
    ghost use Rattle.exh_cells.specs.declared.cell.TheConstants.{CELL_LEN};
    ghost use Rattle.exh_cells.specs.WalkImage.{IsRead, cell_bytes};

    // The cell that has these bytes, whatever they are.
    pub(crate) fn from_bytes(bytes: &[u8; CELL_LEN]) -> Cell
        ensures bytes { cell_bytes result ≡ bytes.now }
        ensures read { IsRead result }
    {
        let mut slots = [Slot { number: 0, page: 0 }; SLOTS];
        for len in 0..SLOTS {
            slots[len] = slot_in(bytes, 4 + 8 * len);
        }
        Cell {
            number: BigEndian::read_u32(bytes),
            slots,
        }
    }

    // Puts the cell's bytes behind others.
    pub(crate) fn push_to(&self, bytes: &mut ArrayVec<u8, CONTENT_LEN>)
        requires { length bytes.old.items + CELL_LEN ≤ CONTENT_LEN }
        ensures bytes { bytes.new.items ≡ bytes.old.items ++ cell_bytes self.now }
        // The types of a cell hold no others.
        ensures read { IsRead self.now }
    {
        push_number(bytes, self.number);
        for len in 0..SLOTS {
            push_slot(bytes, self.slots[len]);
        }
    }
}

// The slot whose bytes begin at a place.
fn slot_in(bytes: &[u8; CELL_LEN], at: usize) -> Slot
    requires { at + 8 ≤ CELL_LEN }
    ensures bytes { slot_bytes result ≡ items at 8 bytes.now }
    ensures read { IsReadSlot result }
{
    Slot {
        number: BigEndian::read_u32(&bytes[at..]),
        page: BigEndian::read_u32(&bytes[at + 4..]),
    }
}

// Puts a slot's bytes behind others.
fn push_slot(bytes: &mut ArrayVec<u8, CONTENT_LEN>, slot: Slot)
    requires { length bytes.old.items + 8 ≤ CONTENT_LEN }
    ensures bytes { bytes.new.items ≡ bytes.old.items ++ slot_bytes slot }
    ensures read { IsReadSlot slot }
{
    push_number(bytes, slot.number);
    push_number(bytes, slot.page);
}

// Puts a number's bytes behind others, the highest first.
fn push_number(bytes: &mut ArrayVec<u8, CONTENT_LEN>, number: u32)
    requires { length bytes.old.items + 4 ≤ CONTENT_LEN }
    ensures bytes { bytes.new.items ≡ bytes.old.items ++ big_bytes 4 number }
    ensures fits { number < 2 ^ 32 }
{
    let mut image = [0; 4];
    BigEndian::write_u32(&mut image, number);
    bytes.try_extend_from_slice(&image).unwrap();
}
