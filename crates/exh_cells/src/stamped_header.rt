ghost use Rattle.std.specs.Prelude.{◌≡◌, ◌<◌, ◌^◌, ◌↔◌, IsTrue};
ghost use Rattle.exh_format.specs.HeaderTests.{HasMagic, IsOfVersion};
ghost use Rattle.exh_cells.specs.StampedHeader.{IsStampedPadded, placed_format};

use crate::COUNTS_LEN;
use byteorder::{BigEndian, ByteOrder};
use exh_codec::{BLOCK_LEN, CONTENT_LEN, ImageFault, are_zero, is_sealed};
use exh_format::{
    FRONT_LEN, FileFault, FileSettings, Header, MAGIC, PLACED_NUMBER, STAMPED_LEN, keyer_of_byte,
};
use exh_keyer::AnyKeyer;
use exh_prefix::Version;

/// What the header block of a page file of version 3 says.
#[derive(Clone, Copy)]
pub struct StampedHeader {
    pub settings: FileSettings<AnyKeyer>,
    /// How many pages each ward has, ward 0 first: 1 to 2^(20 - the ward bits) for a ward of the file, 0 for the others.
    pub page_counts: [u32; COUNTS_LEN],
    /// Which state of which file this is.
    pub stamp: u64,
    /// The stamp before.
    pub before: u64,
}

impl StampedHeader {
    ghost use Rattle.std.specs.Prelude.{◌≡◌, ◌↔◌, IsTrue, IfOk, IfErr, IfSome, IfNone, Ok};
    ghost use Rattle.exh_format.specs.FirstFailing.{IsFirstFailing};
    ghost use Rattle.exh_format.specs.HeaderTests.{header_tests};
    ghost use Rattle.exh_cells.specs.declared.stamped_header.StampedHeader.{StampedHeader as HeaderValue};
    ghost use Rattle.exh_cells.specs.StampedHeader.{IsReadStamped, IsStampedHeader, IsStampedImage, PassesStamped};

    /// The header that has this image. Where there is none, the fault is the first of `Magic`, `Version` and, at
    /// place 0, `Digest`, `Length` (a field out of its range) and `Padding` whose test the block fails, each test
    /// being over the whole block. It takes no memory.
    pub fn from_block(block: &[u8; BLOCK_LEN]) -> Result<StampedHeader, FileFault>
        ensures header { IfOk result (λ header. IsStampedImage header block.now) }
        ensures every { (header : HeaderValue) → IsStampedImage header block.now → result ≡ Ok header }
        ensures fault { IfErr result (IsFirstFailing (PassesStamped block.now) header_tests) }
    {
        if !has_magic(block) {
            return Err(FileFault::Magic);
        }
        if !is_placed(block) {
            return Err(FileFault::Version);
        }
        if !is_sealed(block) {
            return Err(at_header(ImageFault::Digest));
        }
        let Some(header) = StampedHeader::from_fields(block) else {
            return Err(at_header(ImageFault::Length));
        };
        if !is_padded(block) {
            return Err(at_header(ImageFault::Padding));
        }
        Ok(header)
    }

    // The header that the fields of a block say, `None` where one is out of its range.
    fn from_fields(block: &[u8; BLOCK_LEN]) -> Option<StampedHeader>
        ensures some { IfSome result (IsReadStamped block.now) }
        ensures in_range { IfSome result IsStampedHeader }
        ensures none { IfNone result ((header : HeaderValue) → IsReadStamped block.now header → IsStampedHeader header → ⊥) }
    {
        let keyer = keyer_of_byte(block[12])?;
        let mut page_counts = [0; COUNTS_LEN];
        BigEndian::read_u32_into(&block[FRONT_LEN..84], &mut page_counts);
        let settings = FileSettings {
            cap: block[10],
            ward_bits: block[11],
            keyer,
        };
        let header = StampedHeader {
            settings,
            page_counts,
            stamp: BigEndian::read_u64(&block[84..]),
            before: BigEndian::read_u64(&block[92..]),
        };
        if header.is_in_range() {
            Some(header)
        } else {
            None
        }
    }

    /// Whether a page file may have this header: every field is in its range. It takes no memory.
    pub fn is_in_range(&self) -> bool
        ensures { IsTrue result ↔ IsStampedHeader self.now }
    {
        let _stamp = word_of(self.stamp);
        let _before = word_of(self.before);
        let plain = Header {
            settings: self.settings,
            entry_count: 0,
            page_counts: self.page_counts,
        };
        plain.is_in_range(Version::Second)
    }
}

// For proofs: a stamp is a word of 64 bits.
fn word_of(stamp: u64) -> u64
    ensures same { result ≡ stamp }
    ensures word { stamp < 2 ^ 64 }
{
    stamp
}

// Whether a block begins as a page file does.
fn has_magic(block: &[u8; BLOCK_LEN]) -> bool
    ensures { IsTrue result ↔ HasMagic block.now }
{
    block[..8] == MAGIC[..]
}

/// Whether the number of version 3 stands in a header's block. It takes no memory.
pub fn is_placed(block: &[u8; BLOCK_LEN]) -> bool
    ensures { IsTrue result ↔ IsOfVersion placed_format block.now }
{
    BigEndian::read_u16(&block[8..]) == PLACED_NUMBER
}

// Whether the bytes outside the fields are zero.
fn is_padded(block: &[u8; BLOCK_LEN]) -> bool
    ensures { IsTrue result ↔ IsStampedPadded block.now }
{
    are_zero(&block[13..20]) && are_zero(&block[STAMPED_LEN..CONTENT_LEN])
}

// A fault of the header block, which is that of place 0.
fn at_header(fault: ImageFault) -> FileFault
    ensures { result ≡ FileFault.Block 0 fault }
{
    FileFault::Block { place: 0, fault }
}
