ghost use Rattle.std.specs.Prelude.{◌≡◌, ℕ};
ghost use base.Fml.{ftrue};

use std::marker::{Model, PhantomData};
use std::sync::ledger::Blank;

/// A copy's name, which exists in proofs alone: that of the `Blank` that the copy's writer keeps. It owns
/// nothing and takes no bytes.
#[derive(Drop)]
pub(crate) struct CopyName {
    marker: PhantomData<()>,
    pub(crate) ghost name: { ℕ },
}

// That it says so lets its `Send` be proved.
impl Model for CopyName {
    ghost also_owns = { λ _. ftrue };
}

unsafe impl Send for CopyName {}

impl CopyName {
    pub(crate) fn of(blank: &Blank) -> CopyName
        ensures { result.name ≡ blank.now.name }
    {
        let _ = blank;
        CopyName {
            marker: PhantomData,
        }
    }
}
