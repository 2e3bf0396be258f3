ghost use Rattle.std.specs.Prelude.{ℕ, List, IfOk, OnErr, OnOk};
ghost use Rattle.exh_import.specs.declared.imported_store.Added.{Added as Said};

use thiserror::Error;

/// What a put of a pair came to.
#[derive(Clone, Copy, Debug, PartialEq, Eq)]
pub enum Added {
    /// The key has the value now, where it had none or another before.
    Put,
    /// There is no room for the key, and it has no value.
    Full,
}

/// A store refused a call. Why is the store's own to tell.
#[derive(Clone, Copy, Debug, PartialEq, Eq, Error)]
#[error("the store refused")]
pub struct Refused;

/// A store into which pairs are imported.
pub trait ImportedStore {
    /// This is the answer to a put of a key and a value, and the store behind it.
    ghost gives: { Self → List ℕ → List ℕ → Said → Self → Type 0 };

    /// This is the store behind a commit of it.
    ghost saves: { Self → Self → Type 0 };

    /// This is the store behind a rest of it, in which others may have changed it.
    ghost rests: { Self → Self → Type 0 };

    /// This is the store behind a call that it refused.
    ghost refused: { Self → Self → Type 0 };

    /// Gives a key a value.
    fn put(&mut self, key: &[u8], value: &[u8]) -> Result<Added, Refused>
        ensures given { IfOk result (λ added. gives self.old key.now value.now added self.new) }
        ensures refused { OnErr result (refused self.old self.new) };

    /// Saves what was put since the last commit.
    fn commit(&mut self) -> Result<(), Refused>
        ensures saved { OnOk result (saves self.old self.new) }
        ensures refused { OnErr result (refused self.old self.new) };

    /// Lets others at the store for a moment. What was put since the last commit is lost.
    fn rest(&mut self) -> Result<(), Refused>
        ensures rested { OnOk result (rests self.old self.new) }
        ensures refused { OnErr result (refused self.old self.new) };
}
