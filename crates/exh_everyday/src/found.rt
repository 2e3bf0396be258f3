//! Keys that are asked for together: the values of those that are there, and the absent ones.
ghost use Rattle.std.specs.Prelude.{◌≡◌, [], ◌++◌, IfOk, OnOk, flat_map};
ghost use Rattle.exh_everyday.specs.Answers.{found_status, pair_line};
ghost use Rattle.exh_everyday.specs.Founds.{IsPushed};

use crate::shown::push_listed;
use exh_calls::PackedPairs;
use exh_page::{Key, Value};
use exh_text::push_text;
use exh_transfer::Status;
use std::alloc::{AllocError, Global};

/// What is found of keys, in their order: each key that is there with its value, and the keys that aren't.
#[derive(Drop)]
pub(crate) struct Found {
    pub(crate) pairs: PackedPairs,
    pub(crate) absent: Vec<Key>,
}

impl Found {
    pub(crate) fn new(alloc: Global) -> Found
        ensures pairs { result.pairs ≡ [] }
        ensures absent { result.absent.items ≡ [] }
    {
        Found {
            pairs: PackedPairs::new(alloc),
            absent: Vec::new(alloc),
        }
    }

    /// Adds a key, and its value, if it has one. It takes memory.
    pub(crate) fn push(&mut self, key: &Key, value: Option<Value>) -> Result<(), AllocError>
        ensures { OnOk result (IsPushed self.old key.now value self.new) }
    {
        match value {
            Some(value) => self.pairs.push(key, &value),
            None => Ok(self.absent.push(*key)?),
        }
    }

    /// The status behind it: whether all keys are there.
    pub(crate) fn status(&self) -> Status
        ensures { result ≡ found_status self.now.absent.items }
    {
        if self.absent.is_empty() {
            Status::Done
        } else {
            Status::Missing
        }
    }

    /// The lines of the keys that are there, with these words between a key and its value, both as words of a text of
    /// pairs, or in hexadecimal digits. It takes memory for them.
    pub(crate) fn lines(
        &self,
        alloc: Global,
        words: &str,
        is_hex: bool,
    ) -> Result<Vec<u8>, AllocError>
        ensures { IfOk result (λ text. text.items ≡ flat_map (pair_line words.now is_hex) self.now.pairs) }
    {
        let mut text = Vec::new(alloc);
        for (key, value) in self.pairs.iter() {
            push_pair(&mut text, words, is_hex, &key, &value)?;
        }
        Ok(text)
    }
}

// Adds the line of a key and its value.
fn push_pair(
    out: &mut Vec<u8>,
    words: &str,
    is_hex: bool,
    key: &Key,
    value: &Value,
) -> Result<(), AllocError>
    ensures { OnOk result (out.new.items ≡ out.old.items ++ pair_line words.now is_hex (key.now, value.now)) }
{
    push_listed(out, is_hex, key.as_bytes())?;
    push_text(out, words)?;
    push_listed(out, is_hex, value.as_bytes())?;
    push_text(out, "\n")
}
