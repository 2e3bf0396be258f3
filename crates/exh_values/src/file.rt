//! Calls of a program that reads and writes page files, over the file of three pairs, whose bytes and texts were worked out
//! by hand.

use exh_fixtures::three_pairs;
use exh_frames::{FramedMaker, FramedPages};
use exh_keyer::AnyKeyer;
use exh_report::{Verdict, check_text, dump_text};
use exh_script::{Opened, open_over, read_file, write_file};
use std::alloc::Global;
use std::test::Fail;

// How much the file has.
const CHECKED: &[u8] = b"legal wards 1 pages 2 live 2 forward 0 records 3 entries 1\n";

// What it has.
const DUMPED: &[u8] = b"file cap=2 wards=0 keyer=plain
ward 0 pages 2
page 0/0 live prefix 0 right 1 records 2
pair #00 a
pair @ x
page 0/1 live prefix 1 right none records 1
pair #80 b
entry - number 1 split right 1
";

// Whether the parts that are read of the file are its own.
fn is_read(alloc: Global, file: &[u8]) -> Result<bool, Fail> {
    let mut reader = file;
    let parts = read_file(alloc, &mut reader)?;
    let is_header = parts.header.settings.cap == 2 && parts.header.entry_count == 1;
    let is_ward = parts.wards.len() == 1 && parts.wards[0].len() == 2;
    let is_entry = parts.entries.len() == 1 && parts.entries[0].entry.number == 1;
    Ok(is_header && is_ward && is_entry)
}

#[test]
fn file_is_read(rt: HostRuntime) -> Result<(), Fail> {
    let file = three_pairs(rt.alloc())?;
    assert!(rt; file.len() == 16_384 && is_read(rt.alloc(), &file)?);
    Ok(())
}

// Whether wards over images are written as the bytes of a file. Who owns wards has few exits, for the prover's sake: each
// drops them.
fn is_written(alloc: Global, opened: &mut Opened<FramedPages<AnyKeyer>>, file: &[u8]) -> bool {
    let mut written = Vec::new(alloc);
    write_file(&mut written, opened).is_ok() && written.as_slice() == file
}

// The blocks of the pages are kept as they were read, and are written so.
fn is_kept(alloc: Global, file: &[u8]) -> Result<bool, Fail> {
    let maker = FramedMaker::new(2)?;
    let mut reader = file;
    let mut opened = open_over(alloc, &maker, &mut reader)?;
    Ok(is_written(alloc, &mut opened, file))
}

#[test]
fn file_is_opened_over_images(rt: HostRuntime) -> Result<(), Fail> {
    let file = three_pairs(rt.alloc())?;
    assert!(rt; is_kept(rt.alloc(), &file)?);
    Ok(())
}

// Whether `check` and `dump` say of the file what they should.
fn is_told(alloc: Global, file: &[u8]) -> Result<bool, Fail> {
    let (mut checked, mut dumped) = (Vec::new(alloc), Vec::new(alloc));
    let (mut first, mut second) = (file, file);
    let of_check = check_text(alloc, &mut first, &mut checked)?;
    let of_dump = dump_text(alloc, &mut second, &mut dumped)?;
    let are_legal = matches!((of_check, of_dump), (Verdict::Legal, Verdict::Legal));
    Ok(are_legal && checked.as_slice() == CHECKED && dumped.as_slice() == DUMPED)
}

#[test]
fn file_is_told(rt: HostRuntime) -> Result<(), Fail> {
    let file = three_pairs(rt.alloc())?;
    assert!(rt; is_told(rt.alloc(), &file)?);
    Ok(())
}
