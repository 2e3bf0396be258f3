//! Calls by bytes, each with its reply.

use crate::Difference;
use crate::calls::{Asked, value};
use exh_calls::Reply;

/// A call, and its reply.
#[derive(Clone, Copy)]
pub enum Said<'a> {
    /// A put of a key that isn't there.
    New(&'a [u8], &'a [u8]),
    /// A put of a key that had the last value.
    Changed(&'a [u8], &'a [u8], &'a [u8]),
    /// A put of a key that is turned away.
    Full(&'a [u8], &'a [u8]),
    /// A get of a key that has this value.
    Is(&'a [u8], &'a [u8]),
    /// A get of a key that isn't there.
    Absent(&'a [u8]),
    /// A delete of a key that had this value.
    Was(&'a [u8], &'a [u8]),
    /// A delete of a key that isn't there.
    Gone(&'a [u8]),
    /// A swap of a key that had the old value, the second, and has the new one, the last.
    Swapped(&'a [u8], &'a [u8], &'a [u8]),
    /// A swap of these two values of a key that has another one, the last.
    Differs(&'a [u8], &'a [u8], &'a [u8], &'a [u8]),
    /// A swap of these two values of a key that isn't there.
    Unswapped(&'a [u8], &'a [u8], &'a [u8]),
}

impl<'a> Said<'a> {
    /// What is asked.
    pub fn asked(&self) -> Asked<'a> {
        match *self {
            Said::New(key, value) | Said::Changed(key, value, _) | Said::Full(key, value) => {
                Asked::Put(key, value)
            }
            Said::Is(key, _) | Said::Absent(key) => Asked::Get(key),
            Said::Was(key, _) | Said::Gone(key) => Asked::Del(key),
            Said::Swapped(key, old, new)
            | Said::Differs(key, old, new, _)
            | Said::Unswapped(key, old, new) => Asked::Swap(key, old, new),
        }
    }

    /// Its reply. A `Difference` where its value is of a wrong size.
    pub fn reply(&self) -> Result<Reply, Difference> {
        Ok(match *self {
            Said::New(..) => Reply::New,
            Said::Full(..) => Reply::Full,
            Said::Absent(_) | Said::Gone(_) | Said::Unswapped(..) => Reply::None,
            Said::Swapped(..) => Reply::Swapped,
            Said::Differs(.., bytes) => Reply::Differs(value(bytes)?),
            Said::Is(_, bytes) => Reply::Is(value(bytes)?),
            Said::Was(_, bytes) | Said::Changed(_, _, bytes) => Reply::Was(value(bytes)?),
        })
    }
}
