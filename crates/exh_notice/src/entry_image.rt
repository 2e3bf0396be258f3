ghost use Rattle.std.specs.Prelude.{◌≡◌, ◌↔◌, ℕ, ◌+◌, ◌-◌, ◌<◌, Bool, List, length, slice_index, IsTrue, IfOk, IfErr, Ok};
ghost use Rattle.std.specs.List.{AllByRecursion};
ghost use Rattle.byteorder.specs.Endian.{big_from};
ghost use Rattle.exh_prefix.specs.Layout.{layout, written_version};
ghost use Rattle.exh_prefix.specs.Version.{Version as AnyVersion, Fits, first_version, four_bytes};
ghost use Rattle.exh_notice.specs.declared.entry.Entry.{Entry as EntryValue};
ghost use Rattle.exh_notice.specs.NoticeImages.{items, kind_byte, right_field, prefix_field, entry_image, IsEntryImage, IsPadded, HasPrefixField, FailsFirst};

use crate::{Entry, Kind, NoticeFault};
use byteorder::{BigEndian, ByteOrder};
use exh_prefix::{Prefix, Version, WRITTEN};

/// How many bytes the image of an entry has.
pub const ENTRY_IMAGE_LEN: usize = 16;

impl Entry {
    /// The image of the entry at a prefix, in a ward: bits stand from the highest down, so it is the
    /// same in each version of the page file (exhash's own) in which an entry may have such a prefix.
    /// It takes no memory.
    pub fn to_image(&self, ward: u8, prefix: Prefix) -> [u8; ENTRY_IMAGE_LEN]
        ensures { (version : AnyVersion) → Fits 4 version → length prefix < version.limit → result ≡ entry_image version ward prefix self.now }
    {
        let mut image = [0; ENTRY_IMAGE_LEN];
        image[0] = ward;
        image[1] = kind_byte(self.kind);
        image[2] = prefix.len();
        BigEndian::write_u32(&mut image[4..8], prefix_field(prefix));
        BigEndian::write_u32(&mut image[8..12], self.number);
        BigEndian::write_u32(&mut image[12..], right_field(self.kind));
        image
    }

    /// The ward, the prefix and the entry that have this image in the version of the page file that is
    /// written: a `NoticeFault` by the first test that the bytes fail, of their kind, their padding and
    /// their prefix. It takes no memory.
    pub fn from_image(image: &[u8; ENTRY_IMAGE_LEN]) -> Result<(u8, Prefix, Entry), NoticeFault>
        ensures ok { IfOk result (λ read. IsEntryImage written_version read.0 read.1 read.2 image.now) }
        ensures every { (ward : ℕ) (prefix : List Bool) (entry : EntryValue) → IsEntryImage written_version ward prefix entry image.now → result ≡ Ok (ward, prefix, entry) }
        ensures err { IfErr result (λ fault. FailsFirst written_version fault image.now) }
    {
        Entry::from_image_of(WRITTEN, image)
    }

    /// The ward, the prefix and the entry that have this image in version 1 of the page file: a
    /// `NoticeFault` as of `from_image`, by the tests of that version. It takes no memory.
    pub fn from_image_v1(image: &[u8; ENTRY_IMAGE_LEN]) -> Result<(u8, Prefix, Entry), NoticeFault>
        ensures ok { IfOk result (λ read. IsEntryImage first_version read.0 read.1 read.2 image.now) }
        ensures every { (ward : ℕ) (prefix : List Bool) (entry : EntryValue) → IsEntryImage first_version ward prefix entry image.now → result ≡ Ok (ward, prefix, entry) }
        ensures err { IfErr result (λ fault. FailsFirst first_version fault image.now) }
    {
        Entry::from_image_of(Version::First, image)
    }

    /// The ward, the prefix and the entry that have this image in a version of the page file:
    /// a `NoticeFault` by the first test that the bytes fail, of their kind, their padding and their
    /// prefix. It takes no memory.
    pub fn from_image_of(
        version: Version,
        image: &[u8; ENTRY_IMAGE_LEN],
    ) -> Result<(u8, Prefix, Entry), NoticeFault>
        ensures ok { IfOk result (λ read. IsEntryImage (layout version) read.0 read.1 read.2 image.now) }
        ensures every { (ward : ℕ) (prefix : List Bool) (entry : EntryValue) → IsEntryImage (layout version) ward prefix entry image.now → result ≡ Ok (ward, prefix, entry) }
        ensures err { IfErr result (λ fault. FailsFirst (layout version) fault image.now) }
    {
        let kind = read_kind(version, image)?;
        let prefix = read_prefix(version, image)?;
        let entry = Entry {
            number: BigEndian::read_u32(&image[8..]),
            kind,
        };
        Ok((image[0], prefix, entry))
    }
}

fn kind_byte(kind: Kind) -> u8
    ensures { result ≡ kind_byte kind }
{
    match kind {
        Kind::Split { .. } => 1,
        Kind::Merge => 2,
    }
}

fn right_field(kind: Kind) -> u32
    ensures { result ≡ right_field kind }
{
    match kind {
        Kind::Split { right } => right,
        Kind::Merge => 0,
    }
}

// The highest 32 bits of the prefix's low bound, past which it has none.
fn prefix_field(prefix: Prefix) -> u32
    ensures { result ≡ prefix_field four_bytes prefix }
{
    (prefix.low() >> 32) as u32
}

// The kind of an entry whose kind byte and padding are right.
fn read_kind(version: Version, image: &[u8; ENTRY_IMAGE_LEN]) -> Result<Kind, NoticeFault>
    ensures byte { IfOk result (λ kind. slice_index image.now 1 ≡ kind_byte kind) }
    ensures right { IfOk result (λ kind. big_from 12 4 image.now ≡ right_field kind) }
    ensures padded { IfOk result (λ _. IsPadded (layout version) image.now) }
    ensures err { IfErr result (λ fault. FailsFirst (layout version) fault image.now) }
{
    let right = BigEndian::read_u32(&image[12..]);
    let kind = match image[1] {
        1 => Kind::Split { right },
        2 if right == 0 => Kind::Merge,
        2 => return Err(NoticeFault::Padding),
        _ => return Err(NoticeFault::Kind),
    };
    if image[3] != 0 || !ends_in_zeros(version, image) {
        return Err(NoticeFault::Padding);
    }
    Ok(kind)
}

// Whether the four bytes of a prefix end in zeros behind those that the version has for it.
fn ends_in_zeros(version: Version, image: &[u8; ENTRY_IMAGE_LEN]) -> bool
    ensures { IsTrue result ↔ AllByRecursion (λ byte. byte ≡ 0) (items (4 + (layout version).bytes) (4 - (layout version).bytes) image.now) }
{
    for i in 4 + version.bytes()..8 {
        if image[i] != 0 {
            return false;
        }
    }
    true
}

// The prefix of an entry, where it is shorter than the version's limit and has no bit past its
// length.
fn read_prefix(version: Version, image: &[u8; ENTRY_IMAGE_LEN]) -> Result<Prefix, NoticeFault>
    requires { IsPadded (layout version) image.now }
    ensures shorter { IfOk result (λ prefix. length prefix < (layout version).limit) }
    ensures len { IfOk result (λ prefix. slice_index image.now 2 ≡ length prefix) }
    ensures field { IfOk result (λ prefix. big_from 4 (layout version).bytes image.now ≡ prefix_field (layout version) prefix) }
    ensures fault { IfErr result (λ fault. fault ≡ NoticeFault.Prefix) }
    ensures err { IfErr result (λ _. ¬ (HasPrefixField (layout version) image.now)) }
{
    let len = image[2];
    if len >= version.limit() {
        return Err(NoticeFault::Prefix);
    }
    let bits = BigEndian::read_u32(&image[4..]);
    Prefix::new(len, u64::from(bits) << 32).ok_or(NoticeFault::Prefix)
}
