use crate::{Field, WrongRecord};
use thiserror::Error;

/// Why a header gives no columns. Its text is a sentence without a full stop.
#[derive(Clone, Copy, Debug, PartialEq, Eq, Error)]
pub enum WrongHeader {
    /// It is no record of comma-separated fields.
    #[error("the header: {0}")]
    NoRecord(WrongRecord),
    /// No names are asked for, and it has so many columns.
    #[error("2 columns are wanted where none is named, and the header has {count}")]
    NotTwo { count: usize },
    /// No column has the name of the key or value.
    #[error("the header has no column with the name of the {0}'s")]
    NoColumn(Field),
    /// More than one has it.
    #[error("the header has more than one column with the name of the {0}'s")]
    TwoColumns(Field),
}
