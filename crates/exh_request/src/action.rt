//! What a request is to do.

use crate::{GivenSettings, GivenTexts, ImportWords, Keys, NewValue, PutWhen};
use exh_keyer::AnyKeyer;
use exh_page::{FileSettings, Key, Value};
use exh_pair_text::PairFormat;

/// What a request does with the page file of its path.
#[derive(Drop)]
pub enum Action<'w> {
    /// Make it, of these settings, without pairs.
    Create(FileSettings<AnyKeyer>),
    /// Print the values of keys.
    Get(Keys),
    /// Give a key a value.
    Put {
        key: Key,
        value: NewValue,
        when: PutWhen,
    },
    /// Take keys out.
    Del(Keys),
    /// Give a key the new value, where its value is the old one.
    Swap {
        key: Key,
        old: Value,
        new: Value,
    },
    /// Copy it to this new path.
    Backup {
        new: &'w str,
    },
    /// Put the pairs of standard input in.
    Import {
        words: ImportWords,
        texts: GivenTexts<'w>,
    },
    /// Print its pairs.
    Export {
        format: PairFormat,
        /// Without the lines that say where the pairs begin and end, by `--bare`.
        is_bare: bool,
    },
    /// Print the pairs of each of its blocks that is a live page, whatever the others are.
    Salvage {
        format: PairFormat,
        /// Without the lines that say where the pairs begin and end, by `--bare`.
        is_bare: bool,
    },
    /// Make it anew with as few pages as its pairs take, of these settings, and its own where none are named.
    Compact(GivenSettings),
    /// Print what it has and takes.
    Stats {
        /// As one JSON object, by `--json`.
        is_json: bool,
    },
}
