ghost use Rattle.std.specs.Prelude.{◌≡◌};
ghost use Rattle.exh_map.specs.CallFault.{fault_of};
ghost use Rattle.exh_map.specs.Sizes.{IsOfCause, IsOther};
ghost use Rattle.exh_map.specs.Told.{IsChanged, IsOfReading, IsOfRefusal, IsOfUnfit, IsPlain, IsUnsure};
ghost use Rattle.exh_map.specs.declared.store_error.StoreError.TheVariants.{Memory};

use exh_codec::ImageFault;
use exh_in_place::{
    AboveLimit, DirectFault, DraftFault, FileFault, InPlaceFault, LegalFileFault, OpenFault,
    Refused, SaveFault,
};
use exh_legal::Reason;
use exh_saving::DiskFault;
use exh_ward::WardFault;
use std::alloc::{AllocError, AllocFailed};
use std::io;
use std::io::ErrorKind;
use thiserror::Error;

/// Why a call on a store or a page file failed. But for `Unsure` and `Unheld` nothing was changed.
#[derive(Debug, Drop, Error)]
pub enum StoreError {
    /// The key has no bytes.
    #[error("a key has at least one byte (refused 12)")]
    EmptyKey,
    /// The key has so many bytes, more than 64.
    #[error("a key has at most 64 bytes, and this one has {length} (refused 12)")]
    KeyTooLong { length: usize },
    /// The value has so many bytes, more than 128.
    #[error("a value has at most 128 bytes, and this one has {length} (refused 12)")]
    ValueTooLong { length: usize },
    /// A cap that isn't 1 to 16, or ward bits above 4.
    #[error("a page holds 1 to 16 records, and a file has at most 2^4 parts (refused 61)")]
    Settings,
    /// Something is at the path of a new file.
    #[error("something is there already, and stays")]
    Exists,
    /// Nothing is at the path.
    #[error("no page file is there: `exhash create` makes one (refused 41)")]
    Absent,
    /// Another process has the writers' lock.
    #[error("another process is at work on it: try again, or wait longer")]
    Busy,
    /// The file is no longer at its path.
    #[error("the file is no longer at its path, and nothing was saved")]
    Vanished,
    /// The file is another state than the one that was opened, or others came to its path or changed it all the while.
    #[error("it was changed by others meanwhile: try again")]
    Changed,
    /// What is there doesn't begin as a page file does.
    #[error("it is no page file (refused 36)")]
    NoPageFile,
    /// What is there ends before a page file's header does, and doesn't begin as one.
    #[error("it is no page file (refused 38)")]
    NoHeader,
    /// It is a page file of a version that isn't known.
    #[error("it is a page file of a version that isn't known: a newer program may know it (refused 37)")]
    UnknownVersion,
    /// It is of version 1 or 2, which isn't changed in place. A store opens it.
    #[error("it is a page file of a version that isn't changed in place: open it as a store")]
    OldVersion,
    /// The block at this place isn't what belongs there, the header being block 0.
    #[error("block {block} is damaged (refused {number} at {block})", number = .fault.number())]
    Damaged { block: u32, fault: ImageFault },
    /// It ends amid a block, or before its last one.
    #[error("it ends too early (refused 38)")]
    Truncated,
    /// Bytes stand behind its last block.
    #[error("it goes on behind its last block (refused 39)")]
    Trailing,
    /// Its pages and tables don't fit together, for this reason first.
    #[error("its pages and its table don't fit together (refused 40 {0})")]
    Illegal(Reason),
    /// The pages on a key's way don't lead to the key's own.
    #[error("its links don't lead to the key's page (refused 40)")]
    Astray,
    /// It can't be changed in place.
    #[error("{0}")]
    Unfit(InPlaceFault),
    /// It can't be replaced by a new file.
    #[error("{0} (refused 42)")]
    Unsaved(DiskFault),
    /// It would be longer than the system lets a file be.
    #[error("{0} (refused 42)")]
    AboveLimit(AboveLimit),
    /// The store was opened to be read alone.
    #[error("the store was opened to be read")]
    ReadOnly,
    /// The change wasn't saved.
    #[error("{0} (refused 42)")]
    NotSaved(Refused),
    /// The change may have been saved, or was and stands in the log beside the file: who opens it next finds it whole or not
    /// at all.
    #[error("{0}; see what is there before it is tried again (refused 42)")]
    Unsure(Refused),
    /// A change that was cut off stands in the log beside it, and can't be copied into it.
    #[error("{0} (refused 41)")]
    Unrecovered(Refused),
    /// The change was saved, but the store has its file no longer.
    #[error("it is saved, but can't be opened again: {0} (refused 41)")]
    Unheld(io::Error),
    /// It was saved, but its folder couldn't be synchronized: a power failure may take that back.
    #[error("it is saved, but its folder isn't synchronized: {0}")]
    Unsynchronized(io::Error),
    /// A page couldn't be reached. The stores of the program reach every page.
    #[error("a page is out of reach (refused 11)")]
    OutOfReach,
    /// A growth was refused.
    #[error("out of memory (refused 10)")]
    Memory,
    /// The path of its folder isn't UTF-8, as the system has it, so that the file isn't found by its path without links.
    #[error("its folder's path isn't UTF-8: move the file to another folder (refused 41)")]
    FolderNotText,
    /// The system failed.
    #[error("{0} (refused 41)")]
    Io(io::Error),
}

impl StoreError {
    /// Why no page file was opened, where reading failed for this reason, if it did.
    pub fn of_opening(fault: OpenFault, reason: Option<io::Error>) -> StoreError
        ensures other { IsOther result }
        ensures cause { IsOfCause result }
    {
        match fault {
            OpenFault::File(LegalFileFault::File(fault)) => StoreError::from(fault),
            OpenFault::File(LegalFileFault::Illegal(reason)) => StoreError::Illegal(reason),
            OpenFault::File(LegalFileFault::Read) => StoreError::of_reading(reason),
            OpenFault::File(LegalFileFault::Memory) => StoreError::Memory,
            OpenFault::Page => StoreError::OutOfReach,
        }
    }

    /// Why a key's value wasn't found out, where reading failed for this reason, if it did.
    pub fn of_finding(fault: DirectFault, reason: Option<io::Error>) -> StoreError
        ensures other { IsOther result }
        ensures cause { IsOfCause result }
    {
        match fault {
            DirectFault::Read => StoreError::of_reading(reason),
            fault => StoreError::from(fault),
        }
    }

    // That reading failed.
    fn of_reading(reason: Option<io::Error>) -> StoreError
        ensures other { IsOther result }
        ensures cause { IsOfCause result }
    {
        match reason {
            Some(error) => StoreError::from(error),
            None => StoreError::Io(io::Error::from(ErrorKind::Other)),
        }
    }
}

impl From<AllocError> for StoreError {
    ghost from_gives = { λ _ fault. (fault ≡ Memory) × IsOther fault × IsOfCause fault };

    fn from(_error: AllocError) -> StoreError {
        StoreError::Memory
    }
}

impl<T: Drop> From<AllocFailed<T>> for StoreError {
    ghost from_gives = { λ _ fault. (fault ≡ Memory) × IsOther fault × IsOfCause fault };

    fn from(_error: AllocFailed<T>) -> StoreError {
        StoreError::Memory
    }
}

impl From<io::Error> for StoreError {
    ghost from_gives = { λ _ fault. IsOther fault × IsOfCause fault × IsPlain fault };

    fn from(error: io::Error) -> StoreError {
        match error.kind() {
            ErrorKind::OutOfMemory => StoreError::Memory,
            _ if is_of_folder(&error) => StoreError::FolderNotText,
            _ => StoreError::Io(error),
        }
    }
}

// Whether an error tells that a path without links isn't UTF-8, and not that the system found a name too long.
fn is_of_folder(error: &io::Error) -> bool {
    error.kind() == ErrorKind::InvalidFilename && error.raw_os_error().is_none()
}

impl From<WardFault> for StoreError {
    ghost from_gives = { λ ward fault. fault ≡ fault_of ward };

    fn from(fault: WardFault) -> StoreError {
        match fault {
            WardFault::Page => StoreError::OutOfReach,
            _ => StoreError::Memory,
        }
    }
}

impl From<SaveFault> for StoreError {
    ghost from_gives = { λ _ fault. IsOther fault × IsOfCause fault × IsPlain fault };

    fn from(fault: SaveFault) -> StoreError {
        match fault {
            SaveFault::Page => StoreError::OutOfReach,
            SaveFault::Write | SaveFault::Memory => StoreError::Memory,
        }
    }
}

impl From<DraftFault> for StoreError {
    ghost from_gives = { λ _ fault. IsOther fault × IsOfCause fault };

    fn from(fault: DraftFault) -> StoreError {
        match fault {
            DraftFault::Places => StoreError::Changed,
            DraftFault::Page => StoreError::OutOfReach,
            DraftFault::Memory => StoreError::Memory,
        }
    }
}

impl From<FileFault> for StoreError {
    ghost from_gives = { λ _ fault. IsOther fault × IsOfCause fault × (IsUnsure fault → ⊥) × (IsChanged fault → ⊥) };

    fn from(fault: FileFault) -> StoreError {
        match fault {
            FileFault::Block { place, fault } => StoreError::Damaged {
                block: place,
                fault,
            },
            FileFault::Magic => StoreError::NoPageFile,
            FileFault::Version => StoreError::UnknownVersion,
            FileFault::Truncated => StoreError::Truncated,
            FileFault::Trailing => StoreError::Trailing,
        }
    }
}

impl From<DirectFault> for StoreError {
    ghost from_gives = { λ cause fault. IsOther fault × IsOfCause fault × IsOfReading cause fault };

    fn from(fault: DirectFault) -> StoreError {
        match fault {
            DirectFault::File(fault) => StoreError::from(fault),
            DirectFault::Astray => StoreError::Astray,
            DirectFault::Read => StoreError::Io(io::Error::from(ErrorKind::Other)),
            DirectFault::Memory => StoreError::Memory,
        }
    }
}

impl From<InPlaceFault> for StoreError {
    ghost from_gives = { λ cause fault. IsOther fault × IsOfCause fault × IsOfUnfit cause fault };

    fn from(fault: InPlaceFault) -> StoreError {
        match fault {
            InPlaceFault::Busy => StoreError::Busy,
            InPlaceFault::Changed | InPlaceFault::NotAsOpened | InPlaceFault::Restless => {
                StoreError::Changed
            }
            InPlaceFault::System(error) => StoreError::from(error),
            InPlaceFault::Memory => StoreError::Memory,
            fault => StoreError::Unfit(fault),
        }
    }
}

impl From<Refused> for StoreError {
    ghost from_gives = { λ refused fault. IsOther fault × IsOfCause fault × IsOfRefusal refused fault };

    fn from(refused: Refused) -> StoreError {
        match refused {
            Refused::Unfit(fault) => StoreError::from(fault),
            Refused::Damaged(fault) => StoreError::from(fault),
            Refused::Unwritten(fault) => StoreError::from(fault),
            Refused::Unrecovered(error) => StoreError::Unrecovered(Refused::Unrecovered(error)),
            refused if refused.may_be_saved() => StoreError::Unsure(refused),
            refused => StoreError::NotSaved(refused),
        }
    }
}

impl From<DiskFault> for StoreError {
    ghost from_gives = { λ _ fault. IsOther fault × IsOfCause fault };

    fn from(fault: DiskFault) -> StoreError {
        match fault {
            DiskFault::Memory => StoreError::Memory,
            DiskFault::Busy => StoreError::Busy,
            DiskFault::NotAsOpened | DiskFault::Changed => StoreError::Changed,
            DiskFault::NoPageFile => StoreError::NoPageFile,
            DiskFault::System { error, .. } if is_of_folder(&error) => StoreError::FolderNotText,
            fault => StoreError::Unsaved(fault),
        }
    }
}
