//! Commits over files in memory: the three-pair file of FORMATS.md in version 3, whose stamps are 7 and 5.
ghost use Rattle.std.specs.Prelude.{IfOk, IsTrue};
ghost use Rattle.sqlite_disk.specs.Disk.{Only};

use crate::three_pairs::third_version;
use exh_calls::Call;
use exh_commit::{SeenFiles, see_log};
use exh_in_place::{FileStore, Stamps, open};
use exhash::{FileMap, Key, StoreError, Value, commit_calls, commit_files};
use sqlite_disk::{Disk, Files, Memory};
use sqlite_pager::Options;
use std::alloc::Global;
use std::test::Fail;

fn options() -> Options {
    Options {
        cache_pages: 64,
        spill_pages: 2000,
        checkpoint_frames: 1000,
        seed: 7,
    }
}

// A file and its log, of which all is on the disk, and at whose log was looked.
fn durable<D: Disk + Drop>(alloc: Global, mut files: Files<D>) -> Result<SeenFiles<D>, Fail>
    ensures log { IfOk result (λ it. IsTrue (D.Disk.is_usable it.log)) }
    ensures db { IfOk result (λ it. IsTrue (D.Disk.is_usable it.db)) }
    ensures log_synced { IfOk result (λ it. Only (D.Disk.seen it.log) (D.Disk.may_leave it.log)) }
    ensures db_synced { IfOk result (λ it. Only (D.Disk.seen it.db) (D.Disk.may_leave it.db)) }
{
    if !files.may_be_used() {
        return Err("files that may be used".into());
    }
    files.log.sync()?;
    files.db.sync()?;
    match see_log(alloc, files) {
        Ok(files) => Ok(files),
        Err(_) => Err("a log of a page file".into()),
    }
}

// The file, and an empty log.
fn files_of(alloc: Global, bytes: &[u8]) -> Result<Files<Memory>, Fail> {
    let mut db = Memory::new(alloc);
    db.write_at(0, bytes)?;
    Ok(Files {
        log: Memory::new(alloc),
        db,
    })
}

// What came of a commit.
#[derive(Clone, Copy)]
enum Came {
    Done,
    Changed,
    Else,
}

fn outcome_of<T: Drop>(answer: Result<T, StoreError>) -> Came {
    match answer {
        Ok(_) => Came::Done,
        Err(StoreError::Changed) => Came::Changed,
        Err(_) => Came::Else,
    }
}

// One put more. Who owns a map or files has few exits, for the prover's sake: each drops them.
fn put(map: &mut FileMap<FileStore>) -> Result<(), Fail> {
    map.put(&Key::from_bytes(b"\x20")?, &Value::from_bytes(b"z")?)?;
    Ok(())
}

// What is left of the file after a commit of one put more, over a file that should have this stamp.
fn committed(alloc: Global, stamp: u64) -> Result<(Came, Memory), Fail> {
    let bytes = third_version(alloc)?;
    let files = durable(alloc, files_of(alloc, &bytes)?)?;
    let mut map = FileMap::new(open(alloc, &mut bytes.as_slice())?);
    put(&mut map)?;
    let stamps = Stamps {
        own: 9,
        before: stamp,
    };
    let (saved, files) = commit_files(alloc, files, options(), &[0, 1 << 63], stamps, &mut map);
    Ok((outcome_of(saved), files.db))
}

// Whether a file has the three pairs and the put.
fn has_put(alloc: Global, db: &Memory) -> Result<bool, Fail> {
    let mut bytes = db.bytes();
    let mut map = FileMap::new(open(alloc, &mut bytes)?);
    is_put(alloc, &mut map)
}

fn is_put(alloc: Global, map: &mut FileMap<FileStore>) -> Result<bool, Fail> {
    let value = map.get(&Key::from_bytes(b"\x20")?)?;
    let is_z = value == Some(Value::from_bytes(b"z")?);
    Ok(is_z && map.pairs(alloc)?.len() == 4)
}

#[test]
fn commits_over_files_in_memory(rt: HostRuntime) -> Result<(), Fail> {
    let (came, db) = committed(rt.alloc(), 7)?;
    assert!(rt; matches!(came, Came::Done) && has_put(rt.alloc(), &db)?);
    Ok(())
}

// Whether a file is as it was.
fn is_old(alloc: Global, db: &Memory) -> Result<bool, Fail> {
    Ok(db.bytes() == third_version(alloc)?.as_slice())
}

#[test]
fn another_state_is_not_saved_over(rt: HostRuntime) -> Result<(), Fail> {
    let (came, db) = committed(rt.alloc(), 8)?;
    assert!(rt; matches!(came, Came::Changed) && is_old(rt.alloc(), &db)?);
    Ok(())
}

// The call of the same put.
fn call() -> Result<Call, Fail> {
    Ok(Call::Put {
        key: Key::from_bytes(b"\x20")?,
        value: Value::from_bytes(b"z")?,
    })
}

// What is left of the file after a put more was made in it, which should have this stamp.
fn called(alloc: Global, stamp: u64) -> Result<(Came, Memory), Fail> {
    let put = call()?;
    let bytes = third_version(alloc)?;
    let files = durable(alloc, files_of(alloc, &bytes)?)?;
    let (answer, files) = commit_calls(alloc, files, options(), stamp, &[put], 9);
    let is_new = matches!(answer, Err(_) | Ok(9));
    Ok((
        if is_new {
            outcome_of(answer)
        } else {
            Came::Else
        },
        files.db,
    ))
}

#[test]
fn calls_are_made_in_files_in_memory(rt: HostRuntime) -> Result<(), Fail> {
    let (came, db) = called(rt.alloc(), 7)?;
    assert!(rt; matches!(came, Came::Done) && has_put(rt.alloc(), &db)?);
    Ok(())
}

#[test]
fn no_calls_are_made_in_another_state(rt: HostRuntime) -> Result<(), Fail> {
    let (came, db) = called(rt.alloc(), 8)?;
    assert!(rt; matches!(came, Came::Changed) && is_old(rt.alloc(), &db)?);
    Ok(())
}
