//! Files of blocks in memory, of which calls are made to fail.
ghost use Rattle.std.specs.Prelude.{⊤};

use exh_codec::BLOCK_LEN;
use exh_commit::{
    BlockEdit, Blocks, ChangeFault, Changer, CommitFault, DirectFault, LogFault, PagedFile, open,
    see_log,
};
use sqlite_disk::{Crash, Disk, Files, Fuse, Memory};
use sqlite_pager::{Error, Options};
use std::alloc::Global;
use std::test::Fail;

type Fused = Fuse<Memory>;

const NO_END: u64 = u64::MAX;

fn options() -> Options {
    Options {
        cache_pages: 64,
        spill_pages: 2000,
        checkpoint_frames: 1000,
        seed: 7,
    }
}

/// A file of blocks of ones and of twos, and an empty log, which each pass so many calls on.
fn two_blocks(alloc: Global, log_calls: u64, file_calls: u64) -> Result<Files<Fused>, Fail> {
    let mut file = Memory::new(alloc);
    file.write_at(0, &[1; BLOCK_LEN])?;
    file.write_at(BLOCK_LEN, &[2; BLOCK_LEN])?;
    file.sync()?;
    Ok(Files {
        log: Fuse::new(Memory::new(alloc), log_calls),
        db: Fuse::new(file, file_calls),
    })
}

fn opened(alloc: Global, files: Files<Fused>) -> Result<PagedFile<Fused>, (Error, Files<Fused>)> {
    if !files.may_be_used() {
        return Err((Error::Closed, files));
    }
    match see_log(alloc, files) {
        Ok(files) => open(alloc, files, options()),
        Err((LogFault::Read(error), files)) => Err((error, files)),
        Err((LogFault::NoLog, files)) => Err((Error::Corrupt, files)),
    }
}

/// A block that begins as a page file does, and ends with a one.
fn header() -> [u8; BLOCK_LEN] {
    let mut block = [1; BLOCK_LEN];
    block[..10].copy_from_slice(b"EXHASHPF\0\x03");
    block
}

/// Commits a header, a block of threes in place of the twos, and one of fours behind it, and moves them into the file.
fn edited(file: &mut PagedFile<Fused>) -> Result<(), ChangeFault> {
    if !file.is_ready() {
        return Err(ChangeFault::Open(Error::Closed));
    }
    let edits = [
        BlockEdit {
            place: 0,
            block: header(),
        },
        BlockEdit {
            place: 1,
            block: [3; BLOCK_LEN],
        },
        BlockEdit {
            place: 2,
            block: [4; BLOCK_LEN],
        },
    ];
    file.commit(&edits)?;
    if !file.is_ready() {
        return Err(ChangeFault::Open(Error::Closed));
    }
    match file.settle() {
        Ok(()) => Ok(()),
        Err(error) => Err(ChangeFault::LeftInLog(error)),
    }
}

/// The last byte of each of three blocks, 0 where there is none.
fn last_bytes(file: &mut PagedFile<Fused>) -> Result<[u8; 3], Fail> {
    let mut lasts = [0; 3];
    let mut block = [0; BLOCK_LEN];
    for place in 0..3u32 {
        if place < file.count() {
            file.load(place, &mut block)?;
            lasts[place as usize] = block[BLOCK_LEN - 1];
        }
    }
    Ok(lasts)
}

#[test]
fn blocks_are_edited_and_moved_into_the_file(rt: HostRuntime) -> Result<(), Fail> {
    let files = two_blocks(rt.alloc(), NO_END, NO_END)?;
    let Ok(mut file) = opened(rt.alloc(), files) else {
        return Err("an open file".into());
    };
    edited(&mut file)?;
    assert_eq!(rt; last_bytes(&mut file)?, [1, 3, 4]);
    let files = file.close();
    let bytes = files.db.inner().bytes();
    assert_eq!(rt; bytes.len(), 3 * BLOCK_LEN);
    assert!(rt; bytes.first() == Some(&b'E') && bytes.last() == Some(&4));
    Ok(())
}

#[test]
fn a_block_behind_the_end_is_refused(rt: HostRuntime) -> Result<(), Fail> {
    let files = two_blocks(rt.alloc(), NO_END, NO_END)?;
    let Ok(mut file) = opened(rt.alloc(), files) else {
        return Err("an open file".into());
    };
    let edits = [
        BlockEdit {
            place: 0,
            block: [3; BLOCK_LEN],
        },
        BlockEdit {
            place: 3,
            block: [4; BLOCK_LEN],
        },
    ];
    assert!(rt; file.is_ready());
    assert!(rt; matches!(file.commit(&edits), Err(CommitFault::Place(3))));
    assert!(rt; file.is_ready());
    assert_eq!(rt; last_bytes(&mut file)?, [1, 2, 0]);
    Ok(())
}

/// Whether the edits were committed, and the files.
fn run(alloc: Global, files: Files<Fused>) -> (bool, Files<Fused>) {
    match opened(alloc, files) {
        Ok(mut file) => {
            let done = edited(&mut file).is_ok();
            (done, file.close())
        }
        Err((_, files)) => (false, files),
    }
}

#[test]
fn a_crash_at_any_call_leaves_the_old_blocks_or_the_new(rt: HostRuntime) -> Result<(), Fail> {
    let (mut old, mut new) = (false, false);
    for calls in 0..60 {
        for (log_calls, file_calls) in [(calls, NO_END), (NO_END, calls)] {
            let (done, mut files) = run(rt.alloc(), two_blocks(rt.alloc(), log_calls, file_calls)?);
            files.log.crash();
            files.db.crash();
            let Ok(mut file) = opened(rt.alloc(), files) else {
                return Err("an open file".into());
            };
            let found = last_bytes(&mut file)?;
            assert!(rt; found == [1, 3, 4] || (!done && found == [1, 2, 0]));
            old |= found == [1, 2, 0];
            new |= found == [1, 3, 4];
        }
    }
    assert!(rt; old && new);
    Ok(())
}

#[test]
fn a_failed_call_leaves_the_old_blocks_or_the_new(rt: HostRuntime) -> Result<(), Fail> {
    for calls in 0..60 {
        let files = two_blocks(rt.alloc(), calls, NO_END)?;
        let Ok(mut file) = opened(rt.alloc(), files) else {
            continue;
        };
        if !file.is_ready() {
            continue;
        }
        let edits = [
            BlockEdit {
                place: 0,
                block: header(),
            },
            BlockEdit {
                place: 2,
                block: [5; BLOCK_LEN],
            },
        ];
        let unsaved = matches!(file.commit(&edits), Err(CommitFault::NotSaved(_)));
        let mut files = file.close();
        files.log.crash();
        files.db.crash();
        let Ok(mut file) = opened(rt.alloc(), files) else {
            return Err("an open file".into());
        };
        let found = last_bytes(&mut file)?;
        assert!(rt; found == [1, 2, 0] || (!unsaved && found == [1, 2, 5]));
    }
    Ok(())
}

/// Makes of a file's first block one of nines, and answers its first byte. It refuses a file of more than two blocks.
struct Nines;

impl Changer for Nines {
    type Answer = u8;

    ghost allows = { λ _ _ _ _. ⊤ };

    ghost refuses = { λ _ _ _. ⊤ };

    fn change<B: Blocks>(
        &self,
        alloc: Global,
        blocks: &mut B,
    ) -> Result<(u8, Vec<BlockEdit>), DirectFault> {
        if blocks.count() > 2 {
            return Err(DirectFault::Astray);
        }
        let mut block = [0; BLOCK_LEN];
        if blocks.read(0, &mut block).is_err() {
            return Err(DirectFault::Read);
        }
        let mut edits = Vec::new(alloc);
        if edits
            .push(BlockEdit {
                place: 0,
                block: [9; BLOCK_LEN],
            })
            .is_err()
        {
            return Err(DirectFault::Memory);
        }
        Ok((block[0], edits))
    }
}

fn changed(alloc: Global, files: Files<Fused>) -> (Result<u8, ChangeFault>, Files<Fused>) {
    match opened(alloc, files) {
        Ok(file) => {
            if !file.is_ready() {
                return (Err(ChangeFault::Open(Error::Closed)), file.close());
            }
            let (answer, file) = file.change(alloc, &Nines);
            (answer, file.close())
        }
        Err((error, files)) => (Err(ChangeFault::Open(error)), files),
    }
}

#[test]
fn a_changer_changes_a_file_or_refuses(rt: HostRuntime) -> Result<(), Fail> {
    let (answer, files) = changed(rt.alloc(), two_blocks(rt.alloc(), NO_END, NO_END)?);
    assert!(rt; matches!(answer, Ok(1)));
    assert!(rt; files.db.inner().bytes().first() == Some(&9));
    let (done, files) = run(rt.alloc(), files);
    assert!(rt; done);
    let (answer, files) = changed(rt.alloc(), files);
    assert!(rt; matches!(answer, Err(ChangeFault::Refused(DirectFault::Astray))));
    assert!(rt; files.db.inner().bytes().last() == Some(&4));
    Ok(())
}
