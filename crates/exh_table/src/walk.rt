ghost use Rattle.std.specs.Prelude.{◌≡◌, ◌-◌, ◌≤◌, ◌++◌, length, IfOk, OnOk, nat_lt, None, if◌then◌else◌};
ghost use Rattle.exh_prefix.specs.declared.prefix.TheConstants.{LIMIT};
ghost use Rattle.exh_table.specs.TableWalk.{walk_of};
ghost use Rattle.exh_table.specs.Leaves.{leaves_of, AreLeaves};
ghost use Rattle.exh_table.specs.Directory.{IsDepth};
ghost use Rattle.exh_table.specs.Below.{splits_above, leaves_below, depth_below, leaves_listed, depth_of};

use crate::leaf::Leaf;
use crate::table::Table;
use exh_notice::Kind;
use exh_prefix::{LIMIT, PageNo};
use std::alloc::AllocError;

impl Table {
    /// The page that the table names for a pseudokey, in a file of so many ward bits, at most
    /// `LIMIT`. It takes no memory.
    pub fn walk(&self, ward_bits: u8, pseudokey: u64) -> PageNo
        requires { ward_bits ≤ LIMIT }
        ensures { result ≡ (walk_of self.now ward_bits pseudokey).page }
    {
        let mut at = Leaf::root();
        while let Some(right) = self.split_at(ward_bits, &at) {
            at = at.step(at.next_bit(pseudokey), right);
        }
        at.page
    }

    /// The depth of the directory: the greatest length of a leaf, over all wards (Fagin et al.
    /// 1979). It takes no memory.
    pub fn depth(&self, ward_bits: u8) -> u8
        requires { ward_bits ≤ LIMIT }
        ensures depth { IsDepth (leaves_of self.now ward_bits) result }
        ensures computed { result ≡ depth_of self.now ward_bits }
    {
        self.depth_below(ward_bits, &Leaf::root())
    }

    /// The leaves of all wards, in the order of prefixes: where walks stop, with their pages. An
    /// `AllocError` where memory is refused.
    pub fn leaves(&self, ward_bits: u8) -> Result<Vec<Leaf>, AllocError>
        requires { ward_bits ≤ LIMIT }
        ensures leaves { IfOk result (λ leaves. AreLeaves self.now ward_bits leaves.items) }
        ensures listed { IfOk result (λ leaves. leaves.items ≡ leaves_listed self.now ward_bits) }
    {
        let mut leaves = Vec::new(self.alloc);
        self.add_leaves(ward_bits, &Leaf::root(), &mut leaves)?;
        Ok(leaves)
    }

    /// The right page of the split over which walks go on from a place: none where they stop. Above
    /// the wards, of so many bits, all go on with page 0. It takes no memory.
    pub fn split_at(&self, ward_bits: u8, at: &Leaf) -> Option<PageNo>
        ensures { result ≡ (if nat_lt (length at.now.prefix) LIMIT then splits_above self.now ward_bits at.now.prefix else None) }
    {
        let prefix = at.prefix;
        if prefix.len() >= LIMIT {
            return None;
        }
        if prefix.len() < ward_bits {
            return Some(0);
        }
        match self.get(prefix)?.kind {
            Kind::Split { right } => Some(right),
            Kind::Merge => None,
        }
    }

    /// The greatest length of a leaf that walks from a place come to, in a file of so many ward bits
    /// (Fagin et al. 1979). It takes no memory.
    pub fn depth_below(&self, ward_bits: u8, at: &Leaf) -> u8
        ensures { result ≡ depth_below (splits_above self.now ward_bits) (LIMIT - length at.now.prefix) at.now }
    {
        let Some(right) = self.split_at(ward_bits, at) else {
            return at.prefix.len();
        };
        let left = self.depth_below(ward_bits, &at.step(false, right));
        left.max(self.depth_below(ward_bits, &at.step(true, right)))
    }

    // Appends the leaves that walks from a place come to, in the order of prefixes.
    fn add_leaves(&self, ward_bits: u8, at: &Leaf, leaves: &mut Vec<Leaf>) -> Result<(), AllocError>
        ensures { OnOk result (leaves.new.items ≡ leaves.old.items ++ leaves_below (splits_above self.now ward_bits) (LIMIT - length at.now.prefix) at.now) }
    {
        let Some(right) = self.split_at(ward_bits, at) else {
            leaves.push(*at)?;
            return Ok(());
        };
        self.add_leaves(ward_bits, &at.step(false, right), leaves)?;
        self.add_leaves(ward_bits, &at.step(true, right), leaves)
    }
}
