//! The values of several keys, as a reading of an open file, which may be made again.
ghost use Rattle.std.specs.Prelude.{◌≡◌, IfErr, IfOk, OnOk};
ghost use Rattle.exh_everyday.specs.Founds.{AreFoundIn, AreOfFile, AreOfKeys, IsFaultOf, IsFoundOne, IsOfFile};

use crate::found::Found;
use crate::open_file::{MemoryFile, OpenFile, SystemFile};
use crate::wanted::Wanted;
use exh_direct::DirectFault;
use exh_page::{Key, Value};
use exh_transfer::{Reading, Reason, Run, StoreError, find_any, read_beside, unread_at};
use std::alloc::Global;
use std::cell::Cell;
use std::fs::File;
use std::marker::{Brand, PhantomData};

/// What keys have in one state of the file, each by its own blocks.
///
/// Errors: as of `Direct::get`.
pub(crate) fn values_at(run: &Run<'_>, keys: &[Key]) -> Result<Found, StoreError>
    ensures { IfOk result (AreOfKeys keys.now) }
{
    values_of::<Brand>(run, keys)
}

// The same, of the keys that are wanted.
fn values_of<W: Wanted>(run: &Run<'_>, keys: &[Key]) -> Result<Found, StoreError>
    requires { keys.now ≡ W.all_keys }
    ensures { IfOk result (AreOfKeys W.all_keys) }
{
    let reason = Cell::new(None);
    let mut reading = KeysReading::<W> {
        alloc: run.rt.alloc(),
        keys,
        reason: &reason,
        of: PhantomData,
    };
    match read_beside(run.rt, run.path, &mut reading, run.seconds) {
        Ok(Ok(found)) => Ok(found),
        Ok(Err(fault)) => Err(unread_at(
            run.rt,
            run.path,
            StoreError::of_finding(fault, reason.get()),
        )),
        Err(fault) => Err(unread_at(run.rt, run.path, fault)),
    }
}

// A get of keys. Why a block couldn't be read is the reason.
#[derive(Drop)]
struct KeysReading<'k, W: Wanted> {
    alloc: Global,
    keys: &'k [Key],
    reason: &'k Reason,
    of: PhantomData<W>,
    ghost all: { keys.now ≡ W.all_keys },
}

// Finds the values of keys in a page file; of a legal file they are its map's. They stand behind what is found by then.
//
// Errors: as of `find_any`.
fn find_all<F: OpenFile>(
    alloc: Global,
    file: &F,
    keys: &[Key],
    found: &mut Found,
) -> Result<(), DirectFault>
    ensures found { OnOk result (AreOfFile (F.known file.now) keys.now found.old found.new) }
    ensures refused { IfErr result (IsFaultOf (F.known file.now)) }
{
    for key in keys {
        find_one(alloc, file, key, found)?;
    }
    Ok(())
}

// Finds the value of a key in the same way.
fn find_one<F: OpenFile>(
    alloc: Global,
    file: &F,
    key: &Key,
    found: &mut Found,
) -> Result<(), DirectFault>
    ensures found { OnOk result (IsFoundOne (F.known file.now) key.now found.old found.new) }
    ensures refused { IfErr result (IsFaultOf (F.known file.now)) }
{
    let value = value_in(alloc, file, key)?;
    Ok(found.push(key, value)?)
}

// The value of a key in a page file.
fn value_in<F: OpenFile>(alloc: Global, file: &F, key: &Key) -> Result<Option<Value>, DirectFault>
    ensures found { IfOk result (IsOfFile (F.known file.now) key.now) }
    ensures refused { IfErr result (IsFaultOf (F.known file.now)) }
{
    let mut blocks = file.blocks()?;
    find_any(alloc, &mut blocks, key)
}

impl<W: Wanted> Reading for KeysReading<'_, W> {
    type Found = Result<Found, DirectFault>;

    ghost gives = { λ found. IfOk found (AreOfKeys W.all_keys) };

    fn read(&mut self, file: &File) -> Result<Found, DirectFault> {
        self.reason.set(None);
        let file = SystemFile {
            file,
            reason: self.reason,
        };
        found_in(self.alloc, &file, self.keys)
    }

    fn read_bytes(&mut self, bytes: &[u8]) -> Result<Found, DirectFault> {
        self.reason.set(None);
        found_in(self.alloc, &MemoryFile { bytes }, self.keys)
    }
}

// What keys have in a page file.
//
// Errors: as of `find_any`.
fn found_in<F: OpenFile>(alloc: Global, file: &F, keys: &[Key]) -> Result<Found, DirectFault>
    ensures found { IfOk result (AreFoundIn (F.known file.now) keys.now) }
    ensures refused { IfErr result (IsFaultOf (F.known file.now)) }
{
    let mut found = Found::new(alloc);
    find_all(alloc, file, keys, &mut found)?;
    Ok(found)
}
