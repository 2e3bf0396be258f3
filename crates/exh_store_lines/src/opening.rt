use crate::line_fault::LineFault;
use crate::words::{seconds_of, settings_of};
use exhash::{Settings, Store, StoreError};

/// How a store is made or opened.
#[derive(Clone, Copy)]
pub(crate) enum Opening {
    Create(Settings),
    OpenOrCreate(Settings),
    Open,
    OpenWithin(u64),
    Read,
    ReadWithin(u64),
}

impl Opening {
    /// What a verb and the words behind a path tell. `Wrong`: nothing.
    pub(crate) fn of(verb: &[u8], rest: &[&[u8]]) -> Result<Opening, LineFault> {
        match rest {
            [] => match verb {
                b"open" => Ok(Opening::Open),
                b"open-read" => Ok(Opening::Read),
                _ => Err(LineFault::Wrong),
            },
            [seconds] => within(verb, seconds_of(seconds)?),
            [cap, ward_bits, keyer] => with_settings(verb, settings_of(cap, ward_bits, keyer)?),
            _ => Err(LineFault::Wrong),
        }
    }

    /// The store of the file of a path.
    ///
    /// Errors: as of `Store`.
    pub(crate) fn at<'r>(self, rt: &'r HostRuntime, path: &str) -> Result<Store<'r>, StoreError> {
        match self {
            Opening::Create(settings) => Store::create(rt, path, settings),
            Opening::OpenOrCreate(settings) => Store::open_or_create(rt, path, settings),
            Opening::Open => Store::open(rt, path),
            Opening::OpenWithin(seconds) => Store::open_within(rt, path, seconds),
            Opening::Read => Store::open_read(rt, path),
            Opening::ReadWithin(seconds) => Store::open_read_within(rt, path, seconds),
        }
    }
}

// One that waits so many seconds.
fn within(verb: &[u8], seconds: u64) -> Result<Opening, LineFault> {
    match verb {
        b"open" => Ok(Opening::OpenWithin(seconds)),
        b"open-read" => Ok(Opening::ReadWithin(seconds)),
        _ => Err(LineFault::Wrong),
    }
}

// One of a file of these settings.
fn with_settings(verb: &[u8], settings: Settings) -> Result<Opening, LineFault> {
    match verb {
        b"create" => Ok(Opening::Create(settings)),
        b"open-or-create" => Ok(Opening::OpenOrCreate(settings)),
        _ => Err(LineFault::Wrong),
    }
}
