use crate::line_fault::LineFault;
use crate::opening::Opening;
use crate::pair_call::PairCall;
use crate::words::{path_of, seconds_of};
use std::alloc::Global;

/// What a line asks for.
#[derive(Drop)]
pub(crate) enum Asked<'a> {
    /// A store of the file of a path.
    Open {
        path: &'a str,
        way: Opening,
    },
    /// A call over the file of a path, which waits so many seconds, or as long as is usual.
    Direct {
        path: &'a str,
        seconds: Option<u64>,
        call: PairCall,
    },
    /// A call of the store without words behind it.
    Plain(Plain),
    /// A call of the store about a key.
    Call(PairCall),
}

/// A call of a store without words behind it.
#[derive(Clone, Copy)]
pub(crate) enum Plain {
    Settings,
    Len,
    Pairs,
    Commit,
    Close,
    Drop,
}

impl<'a> Asked<'a> {
    /// What words ask for. `Wrong`: nothing. `Store`: memory was refused.
    pub(crate) fn of(alloc: Global, words: &[&'a [u8]]) -> Result<Asked<'a>, LineFault> {
        match words {
            [] => Err(LineFault::Wrong),
            [word] => plain_of(word),
            [b"direct", path, words @ ..] => direct_of(alloc, path, words),
            [verb, path, rest @ ..] if is_opening(verb) => open_of(verb, path, rest),
            words => call_of(alloc, words),
        }
    }
}

// Whether a verb is one of `Opening`.
fn is_opening(verb: &[u8]) -> bool {
    matches!(verb, b"create" | b"open-or-create" | b"open" | b"open-read")
}

// A store that is opened in the way that a verb and the words behind a path tell.
fn open_of<'a>(verb: &[u8], path: &'a [u8], rest: &[&[u8]]) -> Result<Asked<'a>, LineFault> {
    let path = path_of(path)?;
    let way = Opening::of(verb, rest)?;
    Ok(Asked::Open { path, way })
}

// A call over the file of a path.
fn direct_of<'a>(alloc: Global, path: &'a [u8], words: &[&[u8]]) -> Result<Asked<'a>, LineFault> {
    let path = path_of(path)?;
    let (seconds, words) = match words {
        [b"within", seconds, words @ ..] => (Some(seconds_of(seconds)?), words),
        words => (None, words),
    };
    let call = PairCall::of(alloc, words)?;
    Ok(Asked::Direct {
        path,
        seconds,
        call,
    })
}

// A call of the store about a key.
fn call_of<'a>(alloc: Global, words: &[&[u8]]) -> Result<Asked<'a>, LineFault> {
    Ok(Asked::Call(PairCall::of(alloc, words)?))
}

// The call of one word.
fn plain_of<'a>(word: &[u8]) -> Result<Asked<'a>, LineFault> {
    let plain = match word {
        b"settings" => Plain::Settings,
        b"len" => Plain::Len,
        b"pairs" => Plain::Pairs,
        b"commit" => Plain::Commit,
        b"close" => Plain::Close,
        b"drop" => Plain::Drop,
        _ => return Err(LineFault::Wrong),
    };
    Ok(Asked::Plain(plain))
}
