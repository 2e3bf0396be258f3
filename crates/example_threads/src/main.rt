//! A page file at work: it is opened, callers on threads of their own put into it and get from it while a courier tells
//! their copy of the directory of splits, what they were answered is settled, and the file is saved. A program of one's
//! own may begin as a copy of this one.
#![tactic(auto)]

ghost use Rattle.std.specs.Prelude.{IfOk};
ghost use Rattle.example_threads.specs.Unasked.{AreUnasked};

mod caller;
mod service;

use crate::service::{NAMES, Served, serve};
use anyhow::Context;
use exh_frames::FileStore;
use exh_page::Value;
use exh_stream::{Console, Meter, Unit, Work};
use exh_system::{Draft, Opened, OpenedFile, SystemDisk, open, open_above, save_at};
use std::str;

// The page file. It was made by `exhash load people.exh`.
const PATH: &str = "people.exh";

fn main(rt: HostRuntime) -> anyhow::Result<()> {
    let (opened, seen) = open_at(&rt, PATH)?;
    match serve(&rt, rt.alloc(), opened) {
        Ok(served) => end(&rt, &seen, served),
        Err(error) => Err(error),
    }
}

// Tells what was served, and saves the file.
fn end(rt: &HostRuntime, seen: &OpenedFile, served: Served) -> anyhow::Result<()> {
    match tell(rt, &served.values, served.answers) {
        Ok(()) => save(rt, PATH, seen, served.opened),
        Err(error) => Err(error),
    }
}

// Tells the values of the names, and how many answers were settled.
fn tell(rt: &HostRuntime, values: &[Value], answers: u128) -> anyhow::Result<()> {
    for (name, value) in NAMES.iter().zip(values) {
        let text = str::from_utf8(value.as_bytes()).context("a value isn't text")?;
        println!(rt; "{name} is {text}")?;
    }
    println!(rt; "settled {answers}")?;
    Ok(())
}

// The wards of the page file of a path, and the file, which is held open.
fn open_at(rt: &HostRuntime, path: &str) -> anyhow::Result<(Opened<FileStore>, OpenedFile)>
    ensures { IfOk result (λ opened. AreUnasked opened.0) }
{
    let seen = SystemDisk::new(rt).seen(path, open_above(rt, path)?)?;
    let opened = open(rt.alloc(), &mut seen.opened())?;
    Ok((opened, seen))
}

// Saves wards as the page file of a path, where that is still the one that was opened. A terminal is told how far it is.
fn save(
    rt: &HostRuntime,
    path: &str,
    seen: &OpenedFile,
    opened: Opened<FileStore>,
) -> anyhow::Result<()> {
    let work = Work {
        unit: Unit::BlocksWritten,
        of: None,
    };
    let meter = Meter::new(Console::new(rt, rt.stderr()), work);
    let mut disk = SystemDisk::new(rt);
    let draft = Draft::plain(opened);
    let (saved, _) = save_at(rt.alloc(), &mut disk, path, Some(seen), draft, &meter);
    meter.clear();
    saved?;
    println!(rt; "saved {path}")?;
    Ok(())
}
