//! The image of a header of version 3.
ghost use Rattle.std.specs.Prelude.{◌≡◌, ◌+◌, ◌≤◌, ◌++◌, length};
ghost use Rattle.std.specs.List.{flat_map};
ghost use Rattle.byteorder.specs.Endian.{big_bytes};
ghost use Rattle.exh_codec.specs.declared.block.TheConstants.{CONTENT_LEN};
ghost use Rattle.exh_format.specs.HeaderImage.{front_bytes};
ghost use Rattle.exh_cells.specs.StampedHeader.{placed_format, plain_header};

use crate::{COUNTS_LEN, StampedHeader};
use arrayvec::ArrayVec;
use byteorder::{BigEndian, ByteOrder};
use exh_codec::{BLOCK_LEN, CONTENT_LEN, seal};
use exh_format::{FRONT_LEN, MAGIC, PLACED_NUMBER, keyer_byte};

impl StampedHeader {
    ghost use Rattle.exh_cells.specs.StampedHeader.{IsStampedHeader, IsStampedImage};

    /// The header's block, its image. It takes no memory.
    pub fn to_block(&self) -> [u8; BLOCK_LEN]
        requires { IsStampedHeader self.now }
        ensures { IsStampedImage self.now result }
    {
        let mut bytes = ArrayVec::new();
        push_bytes(&mut bytes, &front(self));
        push_counts(&mut bytes, &self.page_counts);
        push_stamp(&mut bytes, self.stamp);
        push_stamp(&mut bytes, self.before);
        let mut block = [0; BLOCK_LEN];
        block[..bytes.len()].copy_from_slice(bytes.as_slice());
        seal(&mut block);
        block
    }
}

// The bytes before the page counts.
#[tactic(auto, unfolding(exh_format::specs::HeaderImage::front_bytes))]
fn front(header: &StampedHeader) -> [u8; FRONT_LEN]
    ensures { result ≡ front_bytes placed_format (plain_header header.now) }
{
    let mut bytes = [0; FRONT_LEN];
    bytes[..8].copy_from_slice(&MAGIC);
    BigEndian::write_u16(&mut bytes[8..], PLACED_NUMBER);
    bytes[10] = header.settings.cap;
    bytes[11] = header.settings.ward_bits;
    bytes[12] = keyer_byte(header.settings.keyer);
    bytes
}

// Puts the page counts behind other bytes.
fn push_counts(bytes: &mut ArrayVec<u8, CONTENT_LEN>, counts: &[u32; COUNTS_LEN])
    requires { length bytes.old.items + 64 ≤ CONTENT_LEN }
    ensures bytes { bytes.new.items ≡ bytes.old.items ++ flat_map (big_bytes 4) counts.now }
    ensures len { length bytes.new.items ≡ length bytes.old.items + 64 }
{
    let mut image = [0; 4 * COUNTS_LEN];
    BigEndian::write_u32_into(counts, &mut image);
    push_bytes(bytes, &image);
}

// Puts a stamp behind other bytes.
fn push_stamp(bytes: &mut ArrayVec<u8, CONTENT_LEN>, stamp: u64)
    requires { length bytes.old.items + 8 ≤ CONTENT_LEN }
    ensures bytes { bytes.new.items ≡ bytes.old.items ++ big_bytes 8 stamp }
    ensures len { length bytes.new.items ≡ length bytes.old.items + 8 }
{
    let mut image = [0; 8];
    BigEndian::write_u64(&mut image, stamp);
    push_bytes(bytes, &image);
}

// Puts bytes behind others.
fn push_bytes(bytes: &mut ArrayVec<u8, CONTENT_LEN>, more: &[u8])
    requires { length bytes.old.items + length more.now ≤ CONTENT_LEN }
    ensures { bytes.new.items ≡ bytes.old.items ++ more.now }
{
    bytes.try_extend_from_slice(more).unwrap();
}
