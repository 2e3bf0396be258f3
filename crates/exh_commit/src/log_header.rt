//! How the header of a log of blocks is laid, and signed.
ghost use Rattle.std.specs.Prelude.{◌≡◌, ◌+◌, ◌≤◌, ◌↔◌, length, take, IsTrue};
ghost use Rattle.sqlite_wal.specs.Format.{IsHeader, IsSigned, be32, be64, stored_sum};
ghost use Rattle.exh_codec.specs.declared.block.TheConstants.{BLOCK_LEN as BlockLen};
ghost use Rattle.exh_commit.specs.LogLook.{BeginsAs, front};

use exh_codec::BLOCK_LEN;
use sqlite_wal::checksum_of;

/// The first byte of a log's header. Where the log is being emptied it is 0 meanwhile.
pub(crate) const FIRST: u8 = 0x37;

// The version of the log's format.
const VERSION: u32 = 3007000;
// How its checksum reads words: the fourth byte of the header says it.
const LITTLE: u8 = 0x82;

const BIG: u8 = 0x83;
// How many bytes of a header are alike in all logs of blocks.
const FRONT_LEN: usize = 12;

// The first bytes of a header, which begins with this byte and whose checksum is so.
fn front_of(first: u8, order: u8) -> [u8; FRONT_LEN]
    ensures { result ≡ front first order }
{
    [first, 0x7f, 0x06, order, 0, 0x2d, 0xe2, 0x18, 0, 0, 0x10, 0]
}

// Whether the bytes begin so, or are a beginning of that.
fn begins_with(front: &[u8; FRONT_LEN], bytes: &[u8]) -> bool
    ensures { IsTrue result ↔ (take 12 bytes.now ≡ take (length bytes.now) front.now) }
{
    let count = bytes.len().min(FRONT_LEN);
    bytes[..count] == front[..count]
}

/// Whether the bytes begin as a header does that begins with this byte, or are a beginning of one.
pub(crate) fn begins_as(first: u8, bytes: &[u8]) -> bool
    ensures { IsTrue result ↔ BeginsAs first bytes.now }
{
    begins_with(&front_of(first, LITTLE), bytes) || begins_with(&front_of(first, BIG), bytes)
}

fn get_be32(bytes: &[u8], at: usize) -> u32
    requires { at + 4 ≤ length bytes.now }
    ensures { result ≡ be32 bytes.now at }
{
    bytes[at] as u32 * 0x100_0000
        + bytes[at + 1] as u32 * 0x1_0000
        + bytes[at + 2] as u32 * 0x100
        + bytes[at + 3] as u32
}

/// Eight bytes as a number, the highest first.
pub(crate) fn get_be64(bytes: &[u8], at: usize) -> u64
    requires { at + 8 ≤ length bytes.now }
    ensures { result ≡ be64 bytes.now at }
{
    get_be32(bytes, at) as u64 * 0x1_0000_0000 + get_be32(bytes, at + 4) as u64
}

fn get_sum(bytes: &[u8], at: usize) -> (u32, u32)
    requires { at + 8 ≤ length bytes.now }
    ensures { result ≡ stored_sum bytes.now at }
{
    (get_be32(bytes, at), get_be32(bytes, at + 4))
}

/// Whether bytes are the signed header of a log of blocks.
pub(crate) fn is_header(head: &[u8]) -> bool
    requires { length head.now ≡ 32 }
    ensures { IsTrue result ↔ IsHeader BlockLen head.now }
{
    is_signed(head) && get_be32(head, 4) == VERSION && get_be32(head, 8) as usize == BLOCK_LEN
}

fn is_signed(head: &[u8]) -> bool
    requires { length head.now ≡ 32 }
    ensures { IsTrue result ↔ IsSigned head.now }
{
    if head[0] != FIRST || head[1] != 0x7f || head[2] != 0x06 {
        return false;
    }
    if head[3] != LITTLE && head[3] != BIG {
        return false;
    }
    checksum_of(head[3] == BIG, (0, 0), &head[..24]) == get_sum(head, 24)
}
