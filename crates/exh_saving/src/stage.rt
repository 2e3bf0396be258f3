//! How far a file is on its way to its path.
ghost use Rattle.std.specs.Prelude.{◌≡◌};

/// How far a file is on its way to its path. What a disk's calls ask of it and make of it is the order of a save.
#[derive(Clone, Copy)]
pub enum Stage {
    /// Made by this save, which has no lock of it yet.
    Made,
    /// Found there, and not locked: another save may have it.
    Left,
    /// Made, and locked: another save may have taken it over before.
    Held,
    /// Found there, and locked: its name may be another file's by now.
    HeldLeft,
    /// Made, locked, and still the file of its name: another save may have written to it before.
    OwnMade,
    /// Found there, locked, and still the file of its name.
    OwnLeft,
    /// The same of one that was found there, and nobody else may open it.
    Restricted,
    /// Locked, the file of its name, and empty.
    Empty,
    /// The same, with the owner and permissions that it is to have.
    Dressed,
    /// Bytes were written that may not be on the disk yet.
    Written,
    /// All of it is on the disk.
    Synchronized,
    /// The same, and it is still the file of its name.
    Confirmed,
    /// It has its path, and the name beside it too.
    Linked,
    /// As before: the system has no links for it.
    Unlinkable,
    /// It has its path alone.
    Placed,
    /// It has its path on the disk too, as far as the system answers for that.
    Settled,
}

impl Stage {
    ghost use Rattle.exh_saving.specs.Stage.{asked, locked};

    /// Once it is locked.
    pub fn locked(self) -> Stage
        ensures { result ≡ locked self }
    {
        match self {
            Stage::Made => Stage::Held,
            Stage::Left => Stage::HeldLeft,
            other => other,
        }
    }

    /// Once it was asked whether it is still the file of its name.
    pub fn asked(self, is_own: bool) -> Stage
        ensures { result ≡ asked self is_own }
    {
        match (self, is_own) {
            (Stage::Held, true) => Stage::OwnMade,
            (Stage::HeldLeft, true) => Stage::OwnLeft,
            (Stage::Synchronized, true) => Stage::Confirmed,
            (other, _) => other,
        }
    }
}
