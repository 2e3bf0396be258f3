//! A world over images by its own door, and scripts and loads by their plainest calls.

use exh_frames::CacheFault;
use exh_keyer::PlainKeyer;
use exh_page::PageHead;
use exh_prefix::Prefix;
use exh_script::{Config, Ended, World, load, serve, serve_from};
use std::alloc::Global;
use std::test::Fail;

const CONFIG: Config<PlainKeyer> = Config {
    cap: 2,
    ward_bits: 0,
    copies: 2,
    keyer: PlainKeyer,
};

// The page of a new world of one ward.
fn first() -> PageHead {
    PageHead::Live {
        prefix: Prefix::of_number(0, 0),
        right: None,
        count: 0,
    }
}

// Why there is no world behind a cache of this size; whether its page is the first one, where there is one.
fn made(alloc: Global, size: usize) -> Result<bool, CacheFault> {
    match World::new_framed(alloc, CONFIG, size) {
        Ok(mut world) => Ok(world.page_line(0, 0) == Ok(first())),
        Err(fault) => Err(fault),
    }
}

#[test]
fn worlds_over_images(rt: HostRuntime) {
    for size in [1, 2, 1024] {
        assert!(rt; matches!(made(rt.alloc(), size), Ok(true)), "{size}");
    }
    for size in [0, 1025] {
        assert!(rt;
            matches!(made(rt.alloc(), size), Err(CacheFault::Size)),
            "{size}"
        );
    }
}

const PUT: &str = "file cap=2 wards=0 copies=1 keyer=plain\nbegin r1 c1 1 put k v\nhop r1\n";

const GET: &str = "file cap=2 wards=0 copies=1 keyer=plain\nbegin r1 c1 1 get k\nhop r1\n";

const PAIRS: &str = "file cap=2 wards=0 copies=1 keyer=plain\n#00 a\n#80 b\n#40 x\n";

#[test]
fn scripts(rt: HostRuntime) -> Result<(), Fail> {
    let alloc = rt.alloc();
    let mut out = Vec::new(alloc);
    assert!(rt; serve(alloc, &mut PUT.as_bytes(), &mut out)? == Ended::Done);
    assert!(rt; out.as_slice() == b"r1 at 0/0\nr1 new\n".as_slice());
    out.clear();
    assert!(rt; serve(alloc, &mut b"".as_slice(), &mut out)? == Ended::Refused);
    assert!(rt; out.as_slice() == b"refused 60\n".as_slice());
    Ok(())
}

// A run over a new file, then over what it left, and one of other settings, which leaves none.
#[test]
fn opened_scripts(rt: HostRuntime) -> Result<(), Fail> {
    let alloc = rt.alloc();
    let mut out = Vec::new(alloc);
    let (ended, opened) = serve_from(alloc, None, &mut PUT.as_bytes(), &mut out)?;
    assert!(rt; ended == Ended::Done && opened.is_some());
    let (ended, opened) = serve_from(alloc, opened, &mut GET.as_bytes(), &mut out)?;
    assert!(rt; ended == Ended::Done && opened.is_some());
    let other = b"file cap=3 wards=0 copies=1 keyer=plain\n".as_slice();
    let (ended, opened) = serve_from(alloc, opened, &mut { other }, &mut out)?;
    assert!(rt; ended == Ended::Refused && opened.is_none());
    assert!(rt;
        out.as_slice() == b"r1 at 0/0\nr1 new\nr1 at 0/0\nr1 is v\nrefused 63\n".as_slice()
    );
    Ok(())
}

// Whether a text of pairs is loaded or refused, and this is printed.
fn comes_to(alloc: Global, text: &[u8], is_whole: bool, printed: &[u8]) -> Result<bool, Fail> {
    let mut out = Vec::new(alloc);
    let mut reader = text;
    let is_loaded = load(alloc, &mut reader, &mut out)?.is_some();
    Ok(is_loaded == is_whole && out.as_slice() == printed)
}

#[test]
fn loads(rt: HostRuntime) -> Result<(), Fail> {
    assert!(rt; comes_to(rt.alloc(), PAIRS.as_bytes(), true, b"loaded 3\n")?);
    assert!(rt; comes_to(rt.alloc(), b"#00 a\n", false, b"refused 60\n")?);
    Ok(())
}
