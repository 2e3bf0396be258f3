ghost use Rattle.std.specs.Prelude.{◌≡◌, ◌%◌, length};
ghost use Rattle.exh_legal.specs.NoticeLimits.{ENTRY_IMAGE_LEN};

use arrayvec::ArrayVec;
use exh_codec::{BLOCK_LEN, CONTENT_LEN, seal};
use exh_legal::ENTRY_IMAGE_LEN;

/// Images of entries that wait for their table block to be full.
#[derive(Drop)]
pub(crate) struct WaitingImages {
    bytes: ArrayVec<u8, CONTENT_LEN>,
    ghost whole: { length bytes.items % ENTRY_IMAGE_LEN ≡ 0 },
}

impl WaitingImages {
    ghost use Rattle.std.specs.Prelude.{◌≡◌, ◌<◌, ◌≤◌, ◌↔◌, [], ◌++◌, length, IsTrue, IsFalse};
    ghost use Rattle.exh_codec.specs.declared.block.TheConstants.{CONTENT_LEN};
    ghost use Rattle.exh_codec.specs.Block.{sealed};
    ghost use Rattle.exh_codec.specs.PageImage.{padded};
    ghost use Rattle.exh_format.specs.WaitingImages.{bytes_of};

    // None.
    pub(crate) fn new() -> WaitingImages
        ensures { bytes_of result ≡ [] }
    {
        WaitingImages {
            bytes: ArrayVec::new(),
        }
    }

    pub(crate) fn is_empty(&self) -> bool
        ensures none { IsTrue result ↔ (bytes_of self.now ≡ []) }
        ensures some { IsFalse result → 0 < length (bytes_of self.now) }
        ensures few { length (bytes_of self.now) ≤ CONTENT_LEN }
    {
        self.bytes.as_slice().is_empty()
    }

    // Whether they fill a block.
    pub(crate) fn is_full(&self) -> bool
        ensures full { IsTrue result ↔ (length (bytes_of self.now) ≡ CONTENT_LEN) }
        ensures room { IsFalse result → length (bytes_of self.now) < CONTENT_LEN }
    {
        self.bytes.is_full()
    }

    // One more.
    pub(crate) fn push(&mut self, image: &[u8; ENTRY_IMAGE_LEN])
        requires { length (bytes_of self.old) < CONTENT_LEN }
        ensures { bytes_of self.new ≡ bytes_of self.old ++ image.now }
    {
        self.bytes.try_extend_from_slice(image).unwrap();
    }

    // Their block.
    pub(crate) fn to_block(&self) -> [u8; BLOCK_LEN]
        ensures { result ≡ sealed (padded CONTENT_LEN (bytes_of self.now)) }
    {
        let mut block = [0; BLOCK_LEN];
        block[..self.bytes.len()].copy_from_slice(self.bytes.as_slice());
        seal(&mut block);
        block
    }

    // Takes all of them away.
    pub(crate) fn clear(&mut self)
        ensures { bytes_of self.new ≡ [] }
    {
        self.bytes.clear();
    }
}
