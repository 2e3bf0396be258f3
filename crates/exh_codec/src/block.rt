ghost use Rattle.std.specs.Prelude.{◌≡◌, ◌↔◌, ℕ, List, take, drop, IsTrue};
ghost use Rattle.sha2.specs.Sha256.{sha256};
ghost use Rattle.exh_codec.specs.declared.block.TheConstants.{CONTENT_LEN};
ghost use Rattle.exh_codec.specs.Block.{sealed, IsSealed};

use sha2::{Digest, Sha256};

/// The length of a block, in bytes.
pub const BLOCK_LEN: usize = 4096;

/// How many bytes of a block stand before its digest.
pub const CONTENT_LEN: usize = 4064;

/// The length of a block's digest, in bytes.
pub const DIGEST_LEN: usize = 32;

/// Writes the digest of a block's content, the SHA-256 (FIPS 180-4) of bytes 0 to 4,064, over the
/// bytes after it.
pub fn seal(block: &mut [u8; BLOCK_LEN])
    ensures block { block.new ≡ sealed (take CONTENT_LEN block.old) }
    ensures content { take CONTENT_LEN block.new ≡ take CONTENT_LEN block.old }
    ensures sealed { IsSealed block.new }
{
    let digest = digest_of(block);
    block[CONTENT_LEN..].copy_from_slice(&digest);
}

/// Writes a digest over the bytes after a block's content.
pub fn put_digest(block: &mut [u8; BLOCK_LEN], digest: &[u8; DIGEST_LEN])
    ensures content { take CONTENT_LEN block.new ≡ take CONTENT_LEN block.old }
    ensures digest { drop CONTENT_LEN block.new ≡ digest.now }
{
    block[CONTENT_LEN..].copy_from_slice(digest);
}

/// The bytes after a block's content.
pub fn digest_in(block: &[u8; BLOCK_LEN]) -> [u8; DIGEST_LEN]
    ensures { result ≡ drop CONTENT_LEN block.now }
{
    let mut digest = [0; DIGEST_LEN];
    digest.copy_from_slice(&block[CONTENT_LEN..]);
    digest
}

/// Whether the last 32 bytes of a block are the digest of those before them.
pub fn is_sealed(block: &[u8; BLOCK_LEN]) -> bool
    ensures { IsTrue result ↔ IsSealed block.now }
{
    let digest = digest_of(block);
    block[CONTENT_LEN..] == digest[..]
}

/// The digest of a block's content, the SHA-256 (FIPS 180-4) of bytes 0 to 4,064.
pub fn digest_of(block: &[u8; BLOCK_LEN]) -> [u8; DIGEST_LEN]
    ensures { result ≡ sha256 (take CONTENT_LEN block.now) }
{
    Sha256::digest(&block[..CONTENT_LEN])
}
