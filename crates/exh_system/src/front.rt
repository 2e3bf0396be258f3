//! What the first bytes of a page file say.
ghost use Rattle.std.specs.Prelude.{◌↔◌, IfNone, IfSome, IsTrue};
ghost use Rattle.exh_direct.specs.HeaderTests.{HasMagic, IsOfVersion};
ghost use Rattle.exh_file.specs.StampedHeader.{placed_format};
ghost use Rattle.exh_system.specs.Front.{IsFront};

use byteorder::{BigEndian, ByteOrder};
use exh_file::{MAGIC, PLACED_NUMBER, STAMPED_LEN};
use std::fs::File;
use std::io;
use std::io::ErrorKind;
use std::os::unix::fs::FileExt;

/// The stamps of a page file of version 3.
#[derive(Clone, Copy, Debug, PartialEq, Eq)]
pub struct Front {
    /// Which state of which file it is.
    pub stamp: u64,
    /// The stamp before.
    pub before: u64,
}

/// The stamps of an open file whose first bytes are those of a page file of version 3; `None` of any other file. The
/// header's digest isn't asked. What is no regular file isn't read.
///
/// An error: the system doesn't say what it is, or doesn't give the bytes of a file that has them.
pub fn front_of(file: &File) -> io::Result<Option<Front>> {
    match first_bytes(file)? {
        Some(bytes) => Ok(front_in(&bytes)),
        None => Ok(None),
    }
}

/// Whether the first bytes of an open file are those of a page file, of any version.
///
/// An error: as of `front_of`.
pub(crate) fn begins_as_page_file(file: &File) -> io::Result<bool> {
    match first_bytes(file)? {
        Some(bytes) => Ok(has_magic(&bytes)),
        None => Ok(false),
    }
}

// The first bytes of a regular file that has them.
fn first_bytes(file: &File) -> io::Result<Option<[u8; STAMPED_LEN]>> {
    if !file.metadata()?.is_file() {
        return Ok(None);
    }
    let mut bytes = [0; STAMPED_LEN];
    match file.read_exact_at(&mut bytes, 0) {
        Ok(()) => Ok(Some(bytes)),
        Err(error) if error.kind() == ErrorKind::UnexpectedEof => Ok(None),
        Err(error) => Err(error),
    }
}

// The stamps in the first bytes of a header of version 3.
fn front_in(bytes: &[u8; STAMPED_LEN]) -> Option<Front>
    ensures some { IfSome result (IsFront bytes.now) }
    ensures none { IfNone result (HasMagic bytes.now → IsOfVersion placed_format bytes.now → ⊥) }
{
    if !has_magic(bytes) || !is_placed(bytes) {
        return None;
    }
    Some(Front {
        stamp: BigEndian::read_u64(&bytes[84..]),
        before: BigEndian::read_u64(&bytes[92..]),
    })
}

fn has_magic(bytes: &[u8; STAMPED_LEN]) -> bool
    ensures { IsTrue result ↔ HasMagic bytes.now }
{
    bytes[..8] == MAGIC[..]
}

fn is_placed(bytes: &[u8; STAMPED_LEN]) -> bool
    ensures { IsTrue result ↔ IsOfVersion placed_format bytes.now }
{
    BigEndian::read_u16(&bytes[8..]) == PLACED_NUMBER
}
