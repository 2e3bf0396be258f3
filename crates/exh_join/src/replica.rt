ghost use Rattle.std.specs.Prelude.{◌≡◌, OnOk, OnErr};
ghost use Rattle.exh_join.specs.Replicas.{History, Began, Took, Combined, value_after};

use crate::Join;
use std::alloc::AllocError;
use std::marker::Model;

/// A value that takes other values by joining them to its own.
#[derive(Drop)]
pub struct Replica<J> {
    value: J,
}

impl<J> Model for Replica<J> {
    ghost Value = { J };

    ghost view = { λ replica. replica.value };
}

impl<J: Join> Replica<J> {
    /// A replica that begins with a value.
    pub fn new(start: J) -> Replica<J>
        ensures value { result ≡ start }
        ensures history { result ≡ value_after J.join (Began start) }
    {
        Replica { value: start }
    }

    /// The join of what the replica began with and all that it took.
    pub fn value(&self) -> &J
        ensures { result.now ≡ self.now }
    {
        &self.value
    }

    /// Joins a value to the replica's. Where memory is refused, an `AllocError`, it stays as before.
    pub fn take(&mut self, value: &J) -> Result<(), AllocError>
        ensures ok { OnOk result (self.new ≡ J.join self.old value.now) }
        ensures history { (before : History J) → self.old ≡ value_after J.join before → OnOk result (self.new ≡ value_after J.join (Took before value.now)) }
        ensures err { OnErr result (self.new ≡ self.old) }
    {
        self.value.join_in(value)
    }

    /// Joins another replica's value to this one's. Where memory is refused, an `AllocError`, it stays
    /// as before.
    pub fn combine(&mut self, other: &Replica<J>) -> Result<(), AllocError>
        ensures ok { OnOk result (self.new ≡ J.join self.old other.now) }
        ensures history { (before there : History J) → self.old ≡ value_after J.join before → other.now ≡ value_after J.join there → OnOk result (self.new ≡ value_after J.join (Combined before there)) }
        ensures err { OnErr result (self.new ≡ self.old) }
    {
        self.take(other.value())
    }
}
