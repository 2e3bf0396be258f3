ghost use Rattle.std.specs.Prelude.{◌+◌};
ghost use Rattle.exh_copy.specs.Additions.{added};

use crate::Addition;
use exh_array::Directory;
use exh_table::Table;
use left_right::Absorb;
use std::alloc::AllocError;

/// What readers look at: the directory, and how many additions it has had.
#[derive(Drop)]
pub struct Published {
    pub directory: Directory,
    pub additions: u64,
}

/// What the two values that `left_right` keeps have in common. No value of it is made.
pub struct Shown {
    pub table: Table,
    pub ward_bits: u8,
    pub additions: u64,
}

impl Absorb<Addition> for Published {
    type State = Shown;

    ghost state = { λ p. record { table = p.directory.table; ward_bits = p.directory.pointers.ward_bits; additions = p.additions } };

    ghost applied = { λ shown addition. record shown { table = added shown.table addition; additions = shown.additions + 1 } };

    fn absorb_first(&mut self, addition: &Addition, _other: &Published) -> Result<(), AllocError> {
        let additions = self.additions.checked_add(1).ok_or(AllocError)?;
        match addition {
            Addition::Take(notice) => {
                self.directory.take(notice)?;
            }
            Addition::Combine(table) => self.directory.join_in(table)?,
        }
        self.additions = additions;
        Ok(())
    }
}
