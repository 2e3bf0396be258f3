//! Stamps of page files of version 3.

use crate::open_above;
use byteorder::{BigEndian, ByteOrder};
use std::io;
use std::io::Read;

// The system's random bytes.
const RANDOM: &str = "/dev/urandom";

/// Eight bytes that the system draws at random.
pub fn draw_stamp(rt: &HostRuntime) -> io::Result<u64> {
    let mut bytes = [0; 8];
    open_above(rt, RANDOM)?.read_exact(&mut bytes)?;
    Ok(BigEndian::read_u64(&bytes))
}
