//! A caller of a live file.

use anyhow::bail;
use exh_calls::{Call, Reply};
use exh_copy::{CopyReader, Start};
use exh_frames::FileStore;
use exh_keyer::AnyKeyer;
use exh_live::{Identity, LiveFile, Seat};
use exh_page::{Key, Value};
use exh_walk::OpenGate;
use std::sync::Wait;

/// The wards of a page file, each behind its lock.
pub type File<F> = LiveFile<FileStore, AnyKeyer, F>;

/// A key and its value, as text.
pub type Pair = (&'static str, &'static str);

/// A caller: its seat, and the reader of the copy of the directory that it looks at.
#[derive(Drop)]
pub struct Caller<F: Identity, S: Start> {
    pub seat: Seat<F>,
    pub copy: CopyReader<S>,
}

impl<F: Identity, S: Start> Caller<F, S> {
    /// Gives a key a value.
    ///
    /// An error: the call is refused, or no page has room for the key.
    pub fn put<R: Wait>(
        &mut self,
        rt: &R,
        file: &File<F>,
        key: Key,
        value: Value,
    ) -> anyhow::Result<()> {
        let call = Call::Put { key, value };
        let reply = file.ask(rt, &mut self.seat, &mut self.copy, &call, &OpenGate)?;
        match reply {
            Reply::Full => bail!("no page has room for the key"),
            _ => Ok(()),
        }
    }

    /// The value of a key, or `None` where it has none.
    ///
    /// An error: the call is refused.
    pub fn get<R: Wait>(
        &mut self,
        rt: &R,
        file: &File<F>,
        key: Key,
    ) -> anyhow::Result<Option<Value>> {
        let call = Call::Get { key };
        let reply = file.ask(rt, &mut self.seat, &mut self.copy, &call, &OpenGate)?;
        match reply {
            Reply::Is(value) => Ok(Some(value)),
            _ => Ok(None),
        }
    }

    /// Puts each pair, and gets its value back.
    ///
    /// An error: a call is refused, or a value isn't the one that was put.
    pub fn put_all<R: Wait>(
        &mut self,
        rt: &R,
        file: &File<F>,
        pairs: &[Pair],
    ) -> anyhow::Result<()> {
        for (name, text) in pairs {
            let key = Key::from_bytes(name.as_bytes())?;
            let value = Value::from_bytes(text.as_bytes())?;
            self.put(rt, file, key, value)?;
            if self.get(rt, file, key)? != Some(value) {
                bail!("{name} has another value");
            }
        }
        Ok(())
    }
}
