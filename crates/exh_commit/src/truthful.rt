ghost use Rattle.std.specs.Prelude.{Bool, true, false, refl, IsTrue};
ghost use Rattle.std.proofs.lemmas.Bool.{false≢true};

use sqlite_disk::{Calls, Disk, Fuse, Memory, Modelled, Start};

/// Disks of which it's known that no answer is wrong, and disks of which that isn't known.
pub trait Truthful: Disk {
    /// No answer is wrong.
    ghost is_truthful: { Bool };

    ghost tells_truth: { IsTrue is_truthful → (file : Self) → IsTrue (Self.Disk.is_clean file) };
}

impl Truthful for Memory {
    ghost is_truthful = { true };

    ghost tells_truth = { λ truthful file. refl };
}

impl<D: Truthful> Truthful for Fuse<D> {
    ghost is_truthful = { D.is_truthful };

    ghost tells_truth = { λ truthful file. D.tells_truth truthful file.inner };
}

// A file of the system may answer anything.
impl<C: Calls, S: Start> Truthful for Modelled<C, S> {
    ghost is_truthful = { false };

    ghost tells_truth = { λ truthful file. absurd (false≢true truthful) };
}
