//! The reply that is printed of what each call answers.

use crate::line_fault::LineFault;
use exh_calls::Reply;
use exhash::{Put, PutNew, StoreError, Swap, Value};

/// Of a get. `Store`: it was refused, and so of the others.
pub(crate) fn of_get(got: Result<Option<Value>, StoreError>) -> Result<Reply, LineFault> {
    match got? {
        Some(value) => Ok(Reply::Is(value)),
        None => Ok(Reply::None),
    }
}

/// Of a put.
pub(crate) fn of_put(put: Result<Put, StoreError>) -> Result<Reply, LineFault> {
    match put? {
        Put::New => Ok(Reply::New),
        Put::Was(value) => Ok(Reply::Was(value)),
        Put::Full => Ok(Reply::Full),
    }
}

/// Of a put that replaces no value.
pub(crate) fn of_put_new(put: Result<PutNew, StoreError>) -> Result<Reply, LineFault> {
    match put? {
        PutNew::New => Ok(Reply::New),
        PutNew::Is(value) => Ok(Reply::Is(value)),
        PutNew::Full => Ok(Reply::Full),
    }
}

/// Of a put in place of a value.
pub(crate) fn of_replace(replaced: Result<Option<Value>, StoreError>) -> Result<Reply, LineFault> {
    match replaced? {
        Some(value) => Ok(Reply::Was(value)),
        None => Ok(Reply::None),
    }
}

/// Of a removal.
pub(crate) fn of_remove(removed: Result<Option<Value>, StoreError>) -> Result<Reply, LineFault> {
    of_replace(removed)
}

/// Of a swap.
pub(crate) fn of_swap(swap: Result<Swap, StoreError>) -> Result<Reply, LineFault> {
    match swap? {
        Swap::Swapped => Ok(Reply::Swapped),
        Swap::Differs(value) => Ok(Reply::Differs(value)),
        Swap::None => Ok(Reply::None),
    }
}
