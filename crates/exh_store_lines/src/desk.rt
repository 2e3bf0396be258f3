use crate::answer::Answer;
use crate::asked::{Asked, Plain};
use crate::line_fault::LineFault;
use crate::pair_call::PairCall;
use exh_text::split_words;
use exhash::{Direct, Store, StoreError};

/// The store that lines are about, and another one, of which the lines begin with the word `other`.
#[derive(Drop)]
pub(crate) struct Desk<'r> {
    rt: &'r HostRuntime,
    store: Option<Store<'r>>,
    other: Option<Store<'r>>,
}

impl<'r> Desk<'r> {
    /// Without a store.
    pub(crate) fn new(rt: &'r HostRuntime) -> Desk<'r> {
        Desk {
            rt,
            store: None,
            other: None,
        }
    }

    /// What a line is answered.
    ///
    /// `Wrong`: it asks for nothing. `NoStore`: no store is open for it. `Store`: the library refuses the call.
    pub(crate) fn answer(&mut self, line: &[u8]) -> Result<Answer, LineFault> {
        let Some(parts) = split_words(line) else {
            return Err(LineFault::Wrong);
        };
        let words: Vec<&[u8]> = parts.collect(self.rt.alloc())?;
        match words.as_slice() {
            [b"other", words @ ..] => answer_words(self.rt, &mut self.other, words),
            words => answer_words(self.rt, &mut self.store, words),
        }
    }
}

// What words are answered that are about this store.
fn answer_words<'r>(
    rt: &'r HostRuntime,
    store: &mut Option<Store<'r>>,
    words: &[&[u8]],
) -> Result<Answer, LineFault> {
    match Asked::of(rt.alloc(), words)? {
        Asked::Open { path, way } => opened(store, way.at(rt, path)),
        Asked::Direct {
            path,
            seconds,
            call,
        } => answer_direct(rt, path, seconds, &call),
        Asked::Plain(plain) => answer_plain(store, plain),
        Asked::Call(call) => answer_call(store, &call),
    }
}

// Keeps a store that was opened. The one that was open is let go.
fn opened<'r>(
    store: &mut Option<Store<'r>>,
    opened: Result<Store<'r>, StoreError>,
) -> Result<Answer, LineFault> {
    *store = Some(opened?);
    Ok(Answer::Done)
}

// The reply of a file.
fn answer_direct(
    rt: &HostRuntime,
    path: &str,
    seconds: Option<u64>,
    call: &PairCall,
) -> Result<Answer, LineFault> {
    let file = Direct::new(rt, path);
    let reply = match seconds {
        Some(seconds) => call.over_file(&file.within(seconds)),
        None => call.over_file(&file),
    };
    Ok(Answer::Reply(reply?))
}

// The reply of the store.
fn answer_call(store: &mut Option<Store<'_>>, call: &PairCall) -> Result<Answer, LineFault> {
    let Some(store) = store else {
        return Err(LineFault::NoStore);
    };
    Ok(Answer::Reply(call.over_store(store)?))
}

// What the store says to a call of one word.
fn answer_plain(store: &mut Option<Store<'_>>, plain: Plain) -> Result<Answer, LineFault> {
    match plain {
        Plain::Close => match store.take() {
            Some(store) => closed(store),
            None => Err(LineFault::NoStore),
        },
        Plain::Drop => match store.take() {
            Some(_) => Ok(Answer::Done),
            None => Err(LineFault::NoStore),
        },
        plain => match store {
            Some(store) => told(store, plain),
            None => Err(LineFault::NoStore),
        },
    }
}

// Closes a store.
fn closed(store: Store<'_>) -> Result<Answer, LineFault> {
    store.close()?;
    Ok(Answer::Done)
}

// What an open store tells.
fn told(store: &mut Store<'_>, plain: Plain) -> Result<Answer, LineFault> {
    match plain {
        Plain::Settings => Ok(Answer::Settings(store.settings())),
        Plain::Len => Ok(Answer::Len(store.len()?)),
        Plain::Pairs => Ok(Answer::Pairs(store.pairs()?)),
        _ => {
            store.commit()?;
            Ok(Answer::Done)
        }
    }
}
