ghost use Rattle.std.specs.Prelude.{◌≡◌, ◌≤◌, ◌-◌, ◌^◌, ◌↔◌, ◌++◌, ℕ, List, length, take, drop, slice_index, IsTrue, IfSome, IfNone, OnSome};
ghost use Rattle.std.specs.Option.{SomeIff};
ghost use Rattle.std.specs.List.{AllByRecursion};
ghost use Rattle.exh_format.specs.declared.header.TheConstants.{COUNTS_LEN};
ghost use Rattle.exh_format.specs.HeaderImage.{IsPageCount};
ghost use Rattle.exh_format.specs.HeaderTests.{HasMagic};
ghost use Rattle.exh_format.specs.FileVersion.{number_of_version, version_of};
ghost use Rattle.exh_prefix.specs.Layout.{layout};

use crate::FileFault;
use byteorder::{BigEndian, ByteOrder};
use exh_codec::{BLOCK_LEN, CONTENT_LEN, ImageFault, are_zero, is_sealed, seal};
use exh_keyer::AnyKeyer;
use exh_legal::{FileSettings, keyer_byte, keyer_of_byte};
use exh_prefix::{Version, WRITTEN};

/// For how many wards a header counts pages.
pub const COUNTS_LEN: usize = 16;

/// How a page file begins.
pub const MAGIC: [u8; 8] = *b"EXHASHPF";

/// The number of version 1 in a header.
const FIRST_NUMBER: u16 = 1;

/// The number of version 2 in a header.
const SECOND_NUMBER: u16 = 2;

/// The number of version 3 in a header.
pub const PLACED_NUMBER: u16 = 3;

/// How many bytes of a file say its version: how it begins, and the number behind that.
pub const NUMBERED_LEN: usize = 10;

/// How many bytes of a header stand before the page counts.
pub const FRONT_LEN: usize = 20;

/// How many bytes of a header block of version 1 or 2 say something.
pub(crate) const HEADER_LEN: usize = FRONT_LEN + 4 * COUNTS_LEN;

/// How many bytes of a header block of version 3 say something: behind the page counts stand two stamps.
pub const STAMPED_LEN: usize = FRONT_LEN + 4 * COUNTS_LEN + 16;

/// What the header block of a page file says.
#[derive(Clone, Copy)]
pub struct Header {
    pub settings: FileSettings<AnyKeyer>,
    /// How many entries the table has, fewer than 2^the version's limit: 65,536 in the first, 1,048,576 in the second.
    pub entry_count: u32,
    /// How many pages each ward has, ward 0 first: 1 to 2^(the limit - the ward bits) for a ward of the
    /// file, 0 for the others.
    pub page_counts: [u32; COUNTS_LEN],
}

impl Header {
    ghost use Rattle.std.specs.Prelude.{◌≡◌, ◌≤◌, ◌↔◌, ◌++◌, ℕ, List, length, drop, IsTrue, IfOk, IfErr, IfSome, IfNone, Ok};
    ghost use Rattle.exh_format.specs.declared.header.TheConstants.{FRONT_LEN, HEADER_LEN};
    ghost use Rattle.exh_format.specs.declared.header.Header.{Header as HeaderValue};
    ghost use Rattle.exh_format.specs.FileVersion.{file_version, written_format};
    ghost use Rattle.exh_format.specs.FirstFailing.{IsFirstFailing};
    ghost use Rattle.exh_format.specs.HeaderImage.{IsHeader, IsHeaderImage, front_bytes, header_bytes};
    ghost use Rattle.exh_format.specs.HeaderTests.{IsReadHeader, PassesHeader, header_tests};

    /// Whether a page file of a version may have this header: every field is in its range. It takes no
    /// memory.
    pub fn is_in_range(&self, version: Version) -> bool
        ensures { IsTrue result ↔ IsHeader (file_version version) self.now }
    {
        let ward_bits = self.settings.ward_bits;
        let Some(wards) = wards_of(ward_bits) else {
            return false;
        };
        let (counts, others) = self.page_counts.split_at(wards);
        self.settings.are_in_range()
            && self.entry_count < 1 << version.limit()
            && are_page_counts(version, ward_bits, counts)
            && are_none(others)
    }

    /// The header's block, its image in the version that is written. It takes no memory.
    pub fn to_block(&self) -> [u8; BLOCK_LEN]
        requires { IsHeader written_format self.now }
        ensures { IsHeaderImage written_format self.now result }
    {
        let mut block = [0; BLOCK_LEN];
        self.put(&mut block);
        seal(&mut block);
        block
    }

    /// The header that has this image in a version. Where there is none, the fault is the first of
    /// `Magic`, `Version` and, at place 0, `Digest`, `Length` (a field out of its range) and `Padding`
    /// whose test the block fails, each test being over the whole block. It takes no memory.
    pub fn from_block(version: Version, block: &[u8; BLOCK_LEN]) -> Result<Header, FileFault>
        ensures header { IfOk result (λ header. IsHeaderImage (file_version version) header block.now) }
        ensures every { (header : HeaderValue) → IsHeaderImage (file_version version) header block.now → result ≡ Ok header }
        ensures fault { IfErr result (IsFirstFailing (PassesHeader (file_version version) block.now) header_tests) }
    {
        if !has_magic(block) {
            return Err(FileFault::Magic);
        }
        if BigEndian::read_u16(&block[8..]) != number_of(version) {
            return Err(FileFault::Version);
        }
        if !is_sealed(block) {
            return Err(at_header(ImageFault::Digest));
        }
        let Some(header) = Header::from_fields(version, block) else {
            return Err(at_header(ImageFault::Length));
        };
        if block[13] != 0
            || block[14] != 0
            || block[15] != 0
            || !are_zero(&block[HEADER_LEN..CONTENT_LEN])
        {
            return Err(at_header(ImageFault::Padding));
        }
        Ok(header)
    }

    // Writes the header over the first bytes.
    fn put(&self, block: &mut [u8])
        requires len { HEADER_LEN ≤ length block.old }
        requires counts { length self.now.page_counts ≡ COUNTS_LEN }
        ensures { block.new ≡ header_bytes written_format self.now ++ drop HEADER_LEN block.old }
    {
        block[..FRONT_LEN].copy_from_slice(&self.front());
        BigEndian::write_u32_into(&self.page_counts, &mut block[FRONT_LEN..HEADER_LEN]);
    }

    // The bytes before the page counts.
    #[tactic(auto, unfolding(crate::specs::HeaderImage::front_bytes))]
    fn front(&self) -> [u8; FRONT_LEN]
        ensures { result ≡ front_bytes written_format self.now }
    {
        let mut bytes = [0; FRONT_LEN];
        bytes[..8].copy_from_slice(&MAGIC);
        BigEndian::write_u16(&mut bytes[8..], number_of(WRITTEN));
        bytes[10] = self.settings.cap;
        bytes[11] = self.settings.ward_bits;
        bytes[12] = keyer_byte(self.settings.keyer);
        BigEndian::write_u32(&mut bytes[16..], self.entry_count);
        bytes
    }

    // The header that the fields of a block say, `None` where one is out of its range.
    fn from_fields(version: Version, block: &[u8; BLOCK_LEN]) -> Option<Header>
        ensures some { IfSome result (IsReadHeader block.now) }
        ensures in_range { IfSome result (IsHeader (file_version version)) }
        ensures none { IfNone result ((header : HeaderValue) → IsReadHeader block.now header → IsHeader (file_version version) header → ⊥) }
    {
        let keyer = keyer_of_byte(block[12])?;
        let mut page_counts = [0; COUNTS_LEN];
        BigEndian::read_u32_into(&block[FRONT_LEN..HEADER_LEN], &mut page_counts);
        let settings = FileSettings {
            cap: block[10],
            ward_bits: block[11],
            keyer,
        };
        let header = Header {
            settings,
            entry_count: BigEndian::read_u32(&block[16..]),
            page_counts,
        };
        if header.is_in_range(version) {
            Some(header)
        } else {
            None
        }
    }
}

// Whether a block begins as a page file does.
fn has_magic(block: &[u8; BLOCK_LEN]) -> bool
    ensures { IsTrue result ↔ HasMagic block.now }
{
    block[..8] == MAGIC[..]
}

// A fault of the header block, which is that of place 0.
fn at_header(fault: ImageFault) -> FileFault
    ensures { result ≡ FileFault.Block 0 fault }
{
    FileFault::Block { place: 0, fault }
}

// How many wards a file has, `None` where a header doesn't count so many.
fn wards_of(ward_bits: u8) -> Option<usize>
    ensures wards { SomeIff result (2 ^ ward_bits ≤ COUNTS_LEN) (2 ^ ward_bits) }
    ensures few { OnSome result (ward_bits ≤ 4) }
{
    match ward_bits {
        0 => Some(1),
        1 => Some(2),
        2 => Some(4),
        3 => Some(8),
        4 => Some(16),
        _ => None,
    }
}

/// The version that a header's block says: the first where its number stands there, else the second, of which
/// [`Header::from_block`] then asks the number. It takes no memory.
pub fn version_in(block: &[u8; BLOCK_LEN]) -> Version
    ensures { result ≡ version_of block.now }
{
    if BigEndian::read_u16(&block[8..]) == number_of(Version::First) {
        Version::First
    } else {
        Version::Second
    }
}

// The number of a version in a header.
fn number_of(version: Version) -> u16
    ensures { result ≡ number_of_version version }
{
    match version {
        Version::First => FIRST_NUMBER,
        Version::Second => SECOND_NUMBER,
    }
}

// Whether each is the count of a ward's pages.
fn are_page_counts(version: Version, ward_bits: u8, counts: &[u32]) -> bool
    requires { ward_bits ≤ 4 }
    ensures { IsTrue result ↔ AllByRecursion (IsPageCount (layout version).limit ward_bits) counts.now }
{
    let most = 1 << (version.limit() - ward_bits);
    for count in counts {
        if *count == 0 || *count > most {
            return false;
        }
    }
    true
}

// Whether all counts are 0.
fn are_none(counts: &[u32]) -> bool
    ensures { IsTrue result ↔ AllByRecursion (λ count. count ≡ 0) counts.now }
{
    for count in counts {
        if *count != 0 {
            return false;
        }
    }
    true
}
