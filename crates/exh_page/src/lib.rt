//! Pages of an extendible hash file: buckets of records whose pseudokeys one prefix begins (Fagin
//! et al. 1979), and the forwarding pages that merges leave behind.
//!
//! The settings that all parts of a file have in common, in their ranges, and the word, the byte and the equality of its
//! keyer; the settings of a world and of a storm.
#![tactic(auto)]

pub use config::Config;
pub use exh_keyer::Keyer;
pub use exh_prefix::{PageNo, Prefix, Version, WRITTEN, ward_number};
pub use file_settings::FileSettings;
pub use key::{KEY_LIMIT, Key};
pub use keyers::{is_same_keyer, keyer_byte, keyer_named, keyer_of_byte};
pub use lent_value::LentValue;
pub use lookup::Lookup;
pub use page::{CAP_LIMIT, Page};
pub use page_head::PageHead;
pub use page_list::PageList;
pub use record::Record;
pub use records::{Records, RecordsIter};
pub use size_fault::SizeFault;
pub use spot::Spot;
pub use storm_config::{CALLERS_LIMIT, CALLS_LIMIT, COPIES_LIMIT, StormConfig};
pub use value::{VALUE_LIMIT, Value};

mod config;
mod file_settings;
mod halves;
mod key;
mod keyers;
mod lent_value;
mod lookup;
mod packed_records;
mod page;
mod page_head;
mod page_list;
mod record;
mod records;
mod short_bytes;
mod size_fault;
mod spot;
mod stored_record;
mod storm_config;
mod value;
