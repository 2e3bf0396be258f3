ghost use Rattle.std.specs.Prelude.{◌≡◌, ◌<◌, ◌≤◌, ◌↔◌, length, take, IfOk, IfErr, IsTrue};
ghost use Rattle.std.specs.Io.KnownBytes.{Consumes, IsAtEnd};
ghost use Rattle.exh_versions.specs.LegalBytes.{SaysPlaced};
ghost use Rattle.exh_format.specs.declared.header.TheConstants.{NUMBERED_LEN};

use exh_format::{LegalFileFault, NUMBERED_LEN, PLACED_NUMBER};
use exh_stream::Source;
use std::io::Read;

/// Reads the first bytes of a file, and gives their number, which is less than `NUMBERED_LEN` only where it ends there.
///
/// `Read`: the reader failed.
pub(crate) fn read_front<R: Read>(
    reader: &mut R,
    front: &mut [u8; NUMBERED_LEN],
) -> Result<usize, LegalFileFault>
    ensures within { IfOk result (λ count. count ≤ NUMBERED_LEN) }
    ensures bytes { IfOk result (λ count. Consumes (R.remaining reader.old) (R.remaining reader.new) (take count front.new)) }
    ensures end { IfOk result (λ count. count < NUMBERED_LEN → IsAtEnd (R.remaining reader.new)) }
    ensures fault { IfErr result (λ fault. fault ≡ LegalFileFault.Read) }
{
    match Source::new(reader).fill(front) {
        Ok(count) => Ok(count),
        Err(_) => Err(LegalFileFault::Read),
    }
}

/// Whether the first bytes of a file, so many, say version 3. It takes no memory.
pub(crate) fn says_placed(front: &[u8; NUMBERED_LEN], count: usize) -> bool
    requires { count ≤ NUMBERED_LEN }
    ensures { IsTrue result ↔ SaysPlaced (take count front.now) }
{
    count == NUMBERED_LEN && front[8] == 0 && u16::from(front[9]) == PLACED_NUMBER
}
