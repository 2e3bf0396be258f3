ghost use Rattle.std.specs.Prelude.{◌≡◌, ◌==◌, count_by};
ghost use Rattle.exh_stream.specs.Line.{amount_of, count_of, unit_words};

/// What is counted of the bytes that pass.
#[derive(Clone, Copy)]
pub enum Unit {
    /// Blocks of 4,096 bytes that are read.
    BlocksRead,
    /// Blocks of 4,096 bytes that are written.
    BlocksWritten,
    /// Lines that are read, behind the first.
    PairsRead,
}

/// Work that goes on: what is counted, and how many of it there are in all, where that is known.
#[derive(Clone, Copy)]
pub struct Work {
    pub unit: Unit,
    pub of: Option<u64>,
}

/// Bytes of a block of a page file.
pub const BLOCK_LEN: u64 = 4096;

const NEWLINE: u8 = b'\n';

impl Unit {
    // How much these bytes add: their number, or that of their newlines.
    pub(crate) fn amount(self, bytes: &[u8]) -> u64
        ensures { result ≡ amount_of self bytes.now }
    {
        match self {
            Unit::BlocksRead | Unit::BlocksWritten => bytes.len() as u64,
            Unit::PairsRead => newlines(bytes),
        }
    }

    // How many there are in so much.
    pub(crate) fn count(self, amount: u64) -> u64
        ensures { result ≡ count_of self amount }
    {
        match self {
            Unit::BlocksRead | Unit::BlocksWritten => amount / BLOCK_LEN,
            Unit::PairsRead => amount.saturating_sub(1),
        }
    }

    // What they are called.
    pub(crate) fn words(self) -> &'static [u8]
        ensures { result.now ≡ unit_words self }
    {
        match self {
            Unit::BlocksRead => b" blocks read",
            Unit::BlocksWritten => b" blocks written",
            Unit::PairsRead => b" pairs read",
        }
    }
}

fn newlines(bytes: &[u8]) -> u64
    ensures { result ≡ count_by (λ byte. byte == NEWLINE) bytes.now }
{
    bytes.iter().filter(|byte| **byte == NEWLINE).count() as u64
}
