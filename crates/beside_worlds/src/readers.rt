//! The page file of the three pairs is opened from readers that give it in pieces and fail at one read, the first, the
//! second, and so on: the fault is told, and no read comes after it.

use crate::three_pairs::{BLOCK_LEN, is_saved, not_opened, reader_of, write_to, writer_for};
use exh_fixtures::{Difference, FakeReader, Part, Run, same, three_pairs};
use exh_script::{OpenFault, open};
use std::alloc::{AllocError, Global};
use std::io::ErrorKind;

// The most bytes of a read, and how many reads the file takes then, with the one that sees its end. The ten bytes that say
// its version are read before the rest of its header.
const READS: [(usize, u32); 2] = [(1, 16_385), (BLOCK_LEN, 6)];

/// Opens the file with a fault at each read that the rounds let it try, and at the last one; and without.
pub(crate) fn run(run: &mut Run) -> Result<(), Difference> {
    let file = three_pairs(run.alloc)?;
    for (most, reads) in READS {
        take_reads(run, &file, most, reads)?;
    }
    Ok(())
}

fn take_reads(run: &mut Run, file: &[u8], most: usize, reads: u32) -> Result<(), Difference> {
    let stride = (reads / run.rounds.max(1)).max(1);
    for at in 1..=reads {
        if at % stride == 0 || at == reads {
            let mut reader = reader_of(file, most);
            reader.fault = Some((at, ErrorKind::Other));
            let is_right = is_refused(run.alloc, &mut reader)? && reader.reads == at;
            run.tally
                .step(same(is_right != run.lie.is_due(), Part::Step));
        }
    }
    let mut reader = reader_of(file, most);
    is_opened(run.alloc, file, &mut reader)?;
    run.tally.step(same(reader.reads == reads, Part::Step));
    Ok(())
}

// Whether the reader's fault is told.
fn is_refused(alloc: Global, reader: &mut FakeReader<'_>) -> Result<bool, AllocError> {
    match open(alloc, reader) {
        Ok(_opened) => Ok(false),
        Err(fault) => is_of_the_reader(fault),
    }
}

fn is_of_the_reader(fault: OpenFault) -> Result<bool, AllocError> {
    match fault.number() {
        10 => Err(AllocError),
        number => Ok(number == 41),
    }
}

/// What a reader gives is opened as wards that are written as the file's bytes.
pub(crate) fn is_opened(
    alloc: Global,
    file: &[u8],
    reader: &mut FakeReader<'_>,
) -> Result<(), Difference> {
    let mut writer = writer_for(alloc, file)?;
    match open(alloc, reader) {
        Ok(mut opened) => {
            let saved = write_to(&mut opened, &mut writer);
            same(
                is_saved(saved)? && writer.taken.as_slice() == file,
                Part::Step,
            )
        }
        Err(fault) => Err(not_opened(fault)),
    }
}
