use crate::line_fault::LineFault;
use crate::replies::{of_get, of_put, of_put_new, of_remove, of_replace, of_swap};
use crate::words::bytes_of;
use exh_calls::Reply;
use exhash::{Direct, Store};
use std::alloc::Global;

// The word of no bytes.
const NO_BYTES: &[u8] = b"#";

/// Which call is asked.
#[derive(Clone, Copy)]
enum Verb {
    Get,
    Put,
    PutNew,
    Replace,
    Remove,
    Swap,
}

/// A call about one key. It has an old value for a swap alone, and a new one where it puts one.
#[derive(Drop)]
pub(crate) struct PairCall {
    verb: Verb,
    key: Vec<u8>,
    old: Vec<u8>,
    new: Vec<u8>,
}

impl PairCall {
    /// The call that words spell. `Wrong`: they spell none. `Store`: memory was refused.
    pub(crate) fn of(alloc: Global, words: &[&[u8]]) -> Result<PairCall, LineFault> {
        match words {
            [b"get", key] => spelled(alloc, Verb::Get, key, NO_BYTES, NO_BYTES),
            [b"put", key, value] => spelled(alloc, Verb::Put, key, NO_BYTES, value),
            [b"put-new", key, value] => spelled(alloc, Verb::PutNew, key, NO_BYTES, value),
            [b"replace", key, value] => spelled(alloc, Verb::Replace, key, NO_BYTES, value),
            [b"remove", key] => spelled(alloc, Verb::Remove, key, NO_BYTES, NO_BYTES),
            [b"swap", key, old, new] => spelled(alloc, Verb::Swap, key, old, new),
            _ => Err(LineFault::Wrong),
        }
    }

    /// What a store answers.
    ///
    /// `Store`: it refuses the call.
    pub(crate) fn over_store(&self, store: &mut Store<'_>) -> Result<Reply, LineFault> {
        match self.verb {
            Verb::Get => of_get(store.get(&self.key)),
            Verb::Put => of_put(store.put(&self.key, &self.new)),
            Verb::PutNew => of_put_new(store.put_new(&self.key, &self.new)),
            Verb::Replace => of_replace(store.replace(&self.key, &self.new)),
            Verb::Remove => of_remove(store.remove(&self.key)),
            Verb::Swap => of_swap(store.swap(&self.key, &self.old, &self.new)),
        }
    }

    /// What a page file answers, which isn't opened whole.
    ///
    /// `Store`: it is refused.
    pub(crate) fn over_file(&self, file: &Direct<'_>) -> Result<Reply, LineFault> {
        match self.verb {
            Verb::Get => of_get(file.get(&self.key)),
            Verb::Put => of_put(file.put(&self.key, &self.new)),
            Verb::PutNew => of_put_new(file.put_new(&self.key, &self.new)),
            Verb::Replace => of_replace(file.replace(&self.key, &self.new)),
            Verb::Remove => of_remove(file.remove(&self.key)),
            Verb::Swap => of_swap(file.swap(&self.key, &self.old, &self.new)),
        }
    }
}

// The call of these words.
fn spelled(
    alloc: Global,
    verb: Verb,
    key: &[u8],
    old: &[u8],
    new: &[u8],
) -> Result<PairCall, LineFault> {
    let key = bytes_of(alloc, key)?;
    let old = bytes_of(alloc, old)?;
    let new = bytes_of(alloc, new)?;
    Ok(PairCall {
        verb,
        key,
        old,
        new,
    })
}
