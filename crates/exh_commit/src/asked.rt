//! A file while a changer reads it.
ghost use Rattle.std.specs.Prelude.{◌≡◌, None, IsTrue, IfErr, IfOk, IfSome};
ghost use Rattle.exh_commit.specs.FilePages.{Leaves};
ghost use Rattle.exh_commit.specs.PagedFile.{IsHonest, bytes_in, files_in, known_in, state_in};

use crate::before::Before;
use crate::known::reason_of;
use crate::{Changer, PagedFile, Truthful};
use exh_codec::BLOCK_LEN;
use exh_edits::{BlockEdit, Blocks, DirectFault};
use std::alloc::Global;
use std::io;
use std::marker::PhantomData;

/// A file of which blocks are read, and which is as it was before.
#[derive(Drop)]
pub struct Asked<D: Truthful, K: Before> {
    file: PagedFile<D>,
    of: PhantomData<K>,
    ghost ready: { (state_in file).is_ready ≡ K.is_ready },
    ghost honest: { IsHonest file → IsTrue K.is_clean },
    ghost same: { bytes_in file ≡ K.bytes },
}

impl<D: Truthful, K: Before> Asked<D, K> {
    /// A file that is as it was before.
    pub fn new(file: PagedFile<D>) -> Asked<D, K>
        requires ready { K.is_ready ≡ (state_in file).is_ready }
        requires clean { K.is_clean ≡ (state_in file).is_clean }
        requires bytes { K.bytes ≡ bytes_in file }
        ensures { result.file ≡ file }
    {
        Asked {
            file,
            of: PhantomData,
        }
    }

    /// The file, as it was before. A crash leaves what it showed.
    pub fn into_file(self) -> PagedFile<D>
        ensures ready { (state_in result).is_ready ≡ K.is_ready }
        ensures honest { IsHonest result → IsTrue K.is_clean }
        ensures bytes { bytes_in result ≡ K.bytes }
        ensures crash { IsTrue K.is_ready → Leaves D.Disk (files_in result) (λ bytes. bytes ≡ K.bytes) }
    {
        let Asked { file, of: _ } = self;
        file
    }
}

impl<D: Truthful, K: Before> Blocks for Asked<D, K> {
    ghost known = { λ asked. known_in D.Truthful.is_truthful asked.file };

    ghost reads = { λ _. None };

    ghost whole = { λ asked. asked.file.pager.count };

    fn count(&self) -> u64 {
        Blocks::count(&self.file)
    }

    fn read(&mut self, place: u32, block: &mut [u8; BLOCK_LEN]) -> io::Result<()> {
        match self.file.load(place, block) {
            Ok(()) => Ok(()),
            Err(error) => Err(reason_of(error)),
        }
    }
}

/// What a changer makes of a file, which is given back as it was.
pub(crate) fn ask<D: Truthful + Drop, C: Changer, K: Before>(
    alloc: Global,
    changer: &C,
    file: PagedFile<D>,
) -> (
    Result<(C::Answer, Vec<BlockEdit>), DirectFault>,
    PagedFile<D>,
)
    requires ready { K.is_ready ≡ (state_in file).is_ready }
    requires clean { K.is_clean ≡ (state_in file).is_clean }
    requires bytes { K.bytes ≡ bytes_in file }
    ensures made { IfOk result.0 (λ made. IfSome (known_in D.Truthful.is_truthful file) (λ bytes. C.allows changer.now bytes made.0 made.1.items)) }
    ensures refused { IfErr result.0 (λ fault. IfSome (known_in D.Truthful.is_truthful file) (λ bytes. C.refuses changer.now bytes fault)) }
    ensures ready { (state_in result.1).is_ready ≡ (state_in file).is_ready }
    ensures honest { IsHonest result.1 → IsHonest file }
    ensures bytes { bytes_in result.1 ≡ bytes_in file }
{
    let mut asked = Asked::<D, K>::new(file);
    let made = changer.change(alloc, &mut asked);
    (made, asked.into_file())
}
