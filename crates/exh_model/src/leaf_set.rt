ghost use Rattle.std.specs.Prelude.{◌≡◌, ◌<◌, length, IfOk, OnOk, OnErr};
ghost use Rattle.std.specs.List.{All};
ghost use Rattle.std.specs.FinSet as set;
ghost use Rattle.exh_prefix.specs.declared.prefix.TheConstants.{LIMIT};
ghost use Rattle.exh_notice.specs.declared.notice.Notice.{Notice as NoticeType};
ghost use Rattle.exh_table.specs.Leaves.{after_kind, leaves_after};
ghost use Rattle.exh_model.specs.LeafSet.{members, AreSame, ListsLeaves};

use exh_notice::{Kind, Notice};
use exh_prefix::Prefix;
use std::alloc::{AllocError, Global};
use std::marker::Model;

/// The leaves of a directory: the set of the prefixes of its buckets (Fagin et al. 1979).
#[derive(Debug, Drop)]
pub struct LeafSet {
    leaves: Vec<Prefix>,
}

impl Model for LeafSet {
    ghost use Rattle.std.specs.Coded.{coded_list, coded_bool};
    ghost use Rattle.std.specs.FinSet as set;
    ghost use Rattle.exh_prefix.specs.Prefix.{prefix_cmp};

    ghost Value = { set.FinSet prefix_cmp };

    ghost coded = { set.code (coded_list coded_bool) };

    ghost view = { λ a. set.from_list a.leaves.items };
}

impl LeafSet {
    /// The set of these prefixes. One that stands twice counts once. An `AllocError` where memory for them is refused.
    pub fn new(alloc: Global, leaves: &[Prefix]) -> Result<LeafSet, AllocError>
        ensures { IfOk result (λ made. made ≡ set.from_list leaves.now) }
    {
        Ok(LeafSet {
            leaves: Vec::from_slice(alloc, leaves)?,
        })
    }

    /// The leaves of a start after these changes, one after another. The prefix of each change is shorter than `LIMIT`.
    /// An `AllocError` where memory for the leaves is refused.
    pub fn after(alloc: Global, start: &[Prefix], changes: &[Notice]) -> Result<LeafSet, AllocError>
        requires { All (λ (change : NoticeType). length change.prefix < LIMIT) changes.now }
        ensures { IfOk result (λ leaves. AreSame (members leaves) (leaves_after (members (set.from_list start.now)) changes.now)) }
    {
        let mut leaves = LeafSet::new(alloc, start)?;
        for change in changes {
            leaves.change(change)?;
        }
        Ok(leaves)
    }

    /// Changes the leaves by a notice, whose prefix is shorter than `LIMIT`: a split takes the prefix out and puts its
    /// two children in, a merge takes the children out and puts the prefix in (Fagin et al. 1979). Where a growth is
    /// refused, an `AllocError`, the leaves are as before.
    pub fn change(&mut self, change: &Notice) -> Result<(), AllocError>
        requires { length change.now.prefix < LIMIT }
        ensures ok { OnOk result (AreSame (members self.new) (after_kind (members self.old) change.now.prefix change.now.kind)) }
        ensures err { OnErr result (self.new ≡ self.old) }
    {
        let parent = change.prefix;
        let left = parent.child(false).unwrap();
        let right = parent.child(true).unwrap();
        self.leaves.reserve(2)?;
        match change.kind {
            Kind::Split { .. } => {
                self.leaves.retain(|leaf| *leaf != parent);
                self.leaves.push_reserved(left);
                self.leaves.push_reserved(right);
            }
            Kind::Merge => {
                self.leaves.retain(|leaf| *leaf != left && *leaf != right);
                self.leaves.push_reserved(parent);
            }
        }
        Ok(())
    }

    /// The leaves in prefix order, each once. An `AllocError` where memory for them is refused.
    pub fn prefixes(&self) -> Result<Vec<Prefix>, AllocError>
        ensures { IfOk result (λ prefixes. ListsLeaves self.now prefixes.items) }
    {
        let mut prefixes = Vec::from_slice(*self.leaves.allocator(), &self.leaves)?;
        prefixes.sort()?;
        prefixes.dedup();
        Ok(prefixes)
    }
}
