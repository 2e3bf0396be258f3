//! Saves over a file system in memory: what they leave where a call fails or a saver is killed, where another saver comes
//! in between, and what they do with what has the name beside the path.

use crate::between::{Ending, Nobody, OtherSaver, save_as};
use crate::memory_disk::{MemoryDisk, OLD, SAVED, USER};
use crate::memory_file::MemoryOpened;
use crate::past::PATH;
use crate::saver::Saver;
use crate::side::Side;
use exh_saving::{Kind, Seen, UNFINISHED};
use std::alloc::{AllocError, Global};
use std::io;
use std::test::Fail;

// More calls than a save makes.
const CALLS: usize = 40;
// What a killed save may have left: longer than what is saved.
const LEFT: &[u8] = b"EXHASHUF that was killed before it had its place";
// Whether there is an old file, something that a save left, and a system with links.
const SCENES: [(bool, bool, bool); 6] = [
    (true, true, true),
    (true, false, true),
    (false, true, true),
    (false, false, true),
    (false, true, false),
    (false, false, false),
];

fn disk_of(
    alloc: Global,
    (has_old, has_left, has_links): (bool, bool, bool),
) -> Result<MemoryDisk, AllocError> {
    let mut disk = MemoryDisk::new(alloc)?;
    disk.has_links = has_links;
    if has_old {
        disk.add_old()?;
    }
    if has_left {
        disk.add(1, LEFT, 0o644)?;
    }
    Ok(disk)
}

// Whether nothing stands beside the path but what stood there before, or a second name of its file.
fn is_clean(disk: &MemoryDisk, before: Option<usize>) -> bool {
    let first = disk.names[1];
    let is_known = first.is_none() || first == before || first == disk.names[0];
    is_known && disk.names[2..].iter().all(|name| name.is_none())
}

// Whether the path has what a saver of this number saved, and would after a power cut, where that is sure.
fn has_saved(disk: &MemoryDisk, saver: usize, ending: Ending) -> bool {
    let is_kept = ending != Ending::Settled || disk.kept == disk.names[0];
    is_kept && disk.at_path() == SAVED.get(saver).copied()
}

// Whether the path has what was there before.
fn is_as_before(disk: &MemoryDisk) -> bool {
    if disk.has_old {
        disk.at_path() == Some(OLD)
    } else {
        disk.at_path().is_none()
    }
}

// Whether a save whose call of this number fails leaves what it must; it must be done where none does.
fn is_safe(disk: &mut MemoryDisk, fails_at: usize) -> bool {
    let before = disk.names[1];
    let ending = save_as(disk, Saver::failing(0, fails_at), None, Nobody);
    disk.see();
    let is_right = match ending {
        Ending::Refused => fails_at > 0 && is_as_before(disk),
        _ => has_saved(disk, 0, ending),
    };
    is_right && !disk.is_wrong && is_clean(disk, before)
}

// Whether a name beside the path is free, or has what a killed save left that no other takes over: a whole file, which was to
// get the path next, or less than the mark, of which one write took a part alone.
fn is_free_or_stays(disk: &MemoryDisk, name: Option<usize>) -> bool {
    match name {
        None => true,
        Some(number) => match disk.nodes.get(number) {
            Some(node) => stays(node.bytes.as_slice()),
            None => false,
        },
    }
}

fn stays(bytes: &[u8]) -> bool {
    let is_part = bytes.len() < UNFINISHED.len() && UNFINISHED.starts_with(bytes);
    is_part || SAVED.iter().any(|saved| *saved == bytes)
}

fn are_free_or_stay(disk: &MemoryDisk) -> bool {
    for name in &disk.names[1..] {
        if !is_free_or_stays(disk, *name) {
            return false;
        }
    }
    true
}

// Whether a save that is killed at the call of this number leaves what it must, and the next one is done.
fn is_safe_when_killed(disk: &mut MemoryDisk, killed_at: usize) -> bool {
    let _ = save_as(disk, Saver::killed(0, killed_at), None, Nobody);
    let next = save_as(disk, Saver::new(1), None, Nobody);
    disk.see();
    let is_alone = are_free_or_stay(disk);
    next == Ending::Settled && has_saved(disk, 1, next) && !disk.is_wrong && is_alone
}

// The number of the first call at which it isn't so.
fn wrong_fault(alloc: Global) -> Result<Option<usize>, AllocError> {
    for scene in SCENES {
        for number in 0..CALLS {
            let is_right = is_safe(&mut disk_of(alloc, scene)?, number)
                && is_safe_when_killed(&mut disk_of(alloc, scene)?, number);
            if !is_right {
                return Ok(Some(number));
            }
        }
    }
    Ok(None)
}

#[test]
fn loses_nothing_where_a_call_fails(rt: HostRuntime) -> Result<(), Fail> {
    assert_eq!(rt; wrong_fault(rt.alloc())?, None);
    Ok(())
}

// Whether two saves leave what they must, of which one comes in before a call of the other, and may be killed there at a
// call of its own. Both saw the old file.
fn is_safe_between(disk: &mut MemoryDisk, at: usize, killed_at: usize) -> bool {
    let seen = seen_in(disk);
    let other_seen = seen_in(disk);
    let mut second = Ending::Refused;
    let other = OtherSaver {
        at,
        killed_at,
        calls: 0,
        seen: other_seen.as_ref(),
        ending: &mut second,
    };
    let first = save_as(disk, Saver::new(0), seen.as_ref(), other);
    disk.see();
    let is_killed = killed_at > 0;
    !disk.is_wrong && is_right_of_two(disk, first, second, is_killed)
}

// Both are done only where nothing was there that the second would have taken back, and neither only where one is killed.
fn is_right_of_two(disk: &MemoryDisk, first: Ending, second: Ending, is_killed: bool) -> bool {
    match (first, second) {
        (Ending::Refused, Ending::Refused) => is_killed && is_as_before(disk),
        (Ending::Refused, _) => has_saved(disk, 1, second),
        (_, Ending::Refused) => has_saved(disk, 0, first),
        _ => !disk.has_old && (has_saved(disk, 0, first) || has_saved(disk, 1, second)),
    }
}

// What a saver saw that opened the old file, where there is one.
fn seen_in(disk: &mut MemoryDisk) -> Option<Seen<MemoryOpened>> {
    if !disk.has_old {
        return None;
    }
    let opened = disk.opened(0).ok()?;
    let alloc = disk.alloc;
    let mut side = Side::new(disk, Saver::new(0), Nobody);
    Seen::new(alloc, &mut side, PATH, opened).ok()
}

fn wrong_between(alloc: Global) -> Result<Option<(usize, usize)>, AllocError> {
    for scene in SCENES {
        for at in 1..CALLS {
            for killed_at in 0..CALLS {
                if !is_safe_between(&mut disk_of(alloc, scene)?, at, killed_at) {
                    return Ok(Some((at, killed_at)));
                }
            }
        }
    }
    Ok(None)
}

#[test]
fn loses_nothing_where_another_save_comes_in_between(rt: HostRuntime) -> Result<(), Fail> {
    assert_eq!(rt; wrong_between(rt.alloc())?, None);
    Ok(())
}

// A disk whose clock stands, with an old file as long as those that are saved.
fn standing_disk(alloc: Global) -> Result<MemoryDisk, AllocError> {
    let mut disk = MemoryDisk::new(alloc)?;
    disk.is_timed = false;
    disk.add_first(OLD, OLD.len() as u64)?;
    disk.has_old = true;
    Ok(disk)
}

// Two saves one after the other; whether the path then has a file of the number that the old one had.
fn save_twice(disk: &mut MemoryDisk) -> bool {
    let first = save_as(disk, Saver::new(1), None, Nobody);
    let second = save_as(disk, Saver::new(1), None, Nobody);
    let is_same = match inode_at_path(disk) {
        Ok(inode) => inode == 0,
        Err(_) => false,
    };
    first == Ending::Settled && second == Ending::Settled && is_same
}

fn inode_at_path(disk: &MemoryDisk) -> io::Result<u64> {
    let number = disk.number(PATH)?;
    Ok(disk.node(number)?.about.inode)
}

#[test]
fn a_file_that_is_open_keeps_its_number(rt: HostRuntime) -> Result<(), Fail> {
    assert_eq!(rt; save_twice(&mut standing_disk(rt.alloc())?), true);
    let mut disk = standing_disk(rt.alloc())?;
    let seen = seen_in(&mut disk);
    assert_eq!(rt; save_twice(&mut disk), false);
    let ending = save_as(&mut disk, Saver::new(0), seen.as_ref(), Nobody);
    assert_eq!(rt; ending == Ending::Refused, true);
    assert_eq!(rt; disk.at_path() == Some(SAVED[1]), true);
    Ok(())
}

// What has the first name beside the path, and is no save's: a pipe, a file of two names, one of another user, a page file, a
// text.
fn strange_left_over(disk: &mut MemoryDisk, number: usize) {
    if let Some(node) = disk.nodes.last_mut() {
        match number {
            0 => node.about.kind = Kind::Other,
            1 => node.about.links = 2,
            2 => node.about.owner = USER + 1,
            3 => node.finish(OLD),
            _ => {
                if let Some(first) = node.bytes.first_mut() {
                    *first = b'x';
                }
            }
        }
    }
}

// Whether a save then takes another name, and leaves what has the first.
fn takes_another_name(disk: &mut MemoryDisk) -> bool {
    let before = disk.names[1];
    let ending = save_as(disk, Saver::new(0), None, Nobody);
    ending == Ending::Settled
        && has_saved(disk, 0, ending)
        && !disk.is_wrong
        && disk.names[1] == before
}

// Whether what is no page file stays.
fn keeps_text(disk: &mut MemoryDisk) -> bool {
    save_as(disk, Saver::new(0), None, Nobody) == Ending::Refused && disk.at_path() == Some(b"abc")
}

#[test]
fn replaces_and_takes_over_only_its_own(rt: HostRuntime) -> Result<(), Fail> {
    for number in 0..5 {
        let mut disk = disk_of(rt.alloc(), (true, true, true))?;
        strange_left_over(&mut disk, number);
        assert_eq!(rt; takes_another_name(&mut disk), true, "at {number}");
    }
    let mut disk = MemoryDisk::new(rt.alloc())?;
    disk.add_first(b"abc", 3)?;
    assert_eq!(rt; keeps_text(&mut disk), true);
    Ok(())
}
