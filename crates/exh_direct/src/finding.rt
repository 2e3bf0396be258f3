ghost use Rattle.std.specs.Prelude.{◌≡◌, ℕ, List, Some, IfOk, IfErr, MatchResult};
ghost use Rattle.exh_format.specs.FileVersion.{format_of};
ghost use Rattle.exh_format.specs.PageFile.{PageFile};
ghost use Rattle.exh_format.specs.Reading.{AreBytes};
ghost use Rattle.exh_format.specs.LegalFile.{IsLegalPageFile};
ghost use Rattle.exh_direct.specs.DirectAnswer.{Finds, Refuses};
ghost use Rattle.exh_direct.specs.KnownBlocks.{BehindHeader, IsBlockAt, IsCount, ReadsOnce};
ghost use Rattle.exh_direct.specs.DirectLaws.{FindsInFile, IsOtherFault};

use crate::follow::follow;
use crate::named::named_page;
use crate::reading::header_in;
use crate::{Blocks, DirectFault};
use exh_codec::BLOCK_LEN;
use exh_keyer::Keyer;
use exh_page::{Key, Value};
use std::alloc::Global;

/// What a page file of version 1 or 2, of so many whole blocks, has at a key, `None` where it hasn't the key. The block of
/// its header was read before. Of the others those of the table are read that are met where each prefix of the key's walk is
/// sought by halves, and the pages on the key's way, at most as many as the key's ward has within the file; each is tested,
/// and none is read twice. Of a legal file that is one page, and of the table at most 260 blocks. It takes memory for the
/// entries of the table's blocks that it reads, the numbers of the pages that it passes, and the records of a page at a time.
///
/// `File`: a block ends early or fails a test, the one that is met first, and the header's before the others. `Astray`: the
/// pages on the way don't lead to the key's own, which tells that the file isn't legal. `Read`: a block couldn't be read.
/// `Memory`: a growth was refused. That the blocks that aren't read pass their tests, that the table's rise from one to the
/// next, that the file is legal, and that it ends behind its table, isn't asked.
pub fn find<B: Blocks>(
    alloc: Global,
    blocks: &mut B,
    count: u64,
    first: &[u8; BLOCK_LEN],
    key: &Key,
) -> Result<Option<Value>, DirectFault>
    requires whole { count ≡ B.whole blocks.old }
    requires count { IsCount (B.known blocks.old) count }
    requires first { IsBlockAt (B.known blocks.old) 0 first.now }
    ensures found { BehindHeader (B.reads blocks.old) (λ before. IfOk result (Finds (B.known blocks.old) (B.whole blocks.old) key.now before (B.reads blocks.new))) }
    ensures refused { BehindHeader (B.reads blocks.old) (λ before. IfErr result (Refuses (B.known blocks.old) (B.whole blocks.old) key.now before (B.reads blocks.new))) }
    ensures once { BehindHeader (B.reads blocks.old) (λ before. ReadsOnce before (B.reads blocks.new)) }
    ensures every { BehindHeader (B.reads blocks.old) (λ before. (file : PageFile) (bytes : List ℕ) → B.known blocks.old ≡ Some bytes → AreBytes bytes → IsLegalPageFile (format_of bytes) file bytes
        → MatchResult result (FindsInFile file key.now before (B.reads blocks.new)) IsOtherFault) }
{
    exh_codec::one_page();
    exh_codec::images_pass();
    exh_codec::images_are_blocks();
    exh_format::one_value();
    exh_format::images_pass();
    exh_format::images_are_blocks();
    exh_format::walks_name_homes();
    find_on_way(alloc, blocks, count, first, key)
}

// The same, told of what was read alone.
fn find_on_way<B: Blocks>(
    alloc: Global,
    blocks: &mut B,
    count: u64,
    first: &[u8; BLOCK_LEN],
    key: &Key,
) -> Result<Option<Value>, DirectFault>
    requires whole { count ≡ B.whole blocks.old }
    requires count { IsCount (B.known blocks.old) count }
    requires first { IsBlockAt (B.known blocks.old) 0 first.now }
    ensures found { BehindHeader (B.reads blocks.old) (λ before. IfOk result (Finds (B.known blocks.old) (B.whole blocks.old) key.now before (B.reads blocks.new))) }
    ensures refused { BehindHeader (B.reads blocks.old) (λ before. IfErr result (Refuses (B.known blocks.old) (B.whole blocks.old) key.now before (B.reads blocks.new))) }
{
    let (version, header) = header_in(first)?;
    let pseudokey = header.settings.keyer.pseudo(key.as_bytes());
    let page = named_page(alloc, blocks, version, count, &header, pseudokey)?;
    follow(alloc, blocks, version, count, &header, page, pseudokey, key)
}
