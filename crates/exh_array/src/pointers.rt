ghost use Rattle.std.specs.Prelude.{◌≡◌, ℕ, ◌-◌, ◌<◌, ◌≤◌, ◌^◌, [], length, filter, max, slice_set, Some, IfOk, IsTrue, OnOk, OnErr};
ghost use Rattle.std.specs.FinMap as map;
ghost use Rattle.exh_prefix.specs.declared.prefix.TheConstants.{LIMIT};
ghost use Rattle.exh_prefix.specs.Prefix.{Begins};
ghost use Rattle.exh_table.specs.Table.{TableMap};
ghost use Rattle.exh_table.specs.TableWalk.{walk_of};
ghost use Rattle.exh_table.specs.Below.{splits_above, depth_below, depth_of};
ghost use Rattle.exh_table.specs.Leaves.{leaves_of};
ghost use Rattle.exh_table.specs.Directory.{IsDepth};
ghost use Rattle.exh_array.specs.Pointers.{IsArrayOf, DifferAtMostAt, NamesPageOf, pointer_at, pointer_to};
ghost use Rattle.exh_array.specs.Within.{is_deep, walk_along, HasLeavesOf, IsPlaceIn, PointTheSame, IsPointedBelow};

use crate::pointer::Pointer;
use exh_prefix::{LIMIT, PageNo, Prefix, leading};
use exh_table::{Leaf, Table};
use std::alloc::{AllocError, Global};
use std::marker::Model;

/// The doubled array of pointers of a table: one for each list of leading bits as long as the
/// directory is deep, in the order of these bits, to the page that the table names for them (Fagin
/// et al. 1979).
#[derive(Drop)]
pub struct Pointers {
    ward_bits: u8,
    depth: u8,
    // How many pointers are to leaves as long as the directory is deep: where none is, it is halved.
    deepest: usize,
    pointers: Vec<Pointer>,
}

impl Model for Pointers {
    ghost use Rattle.std.specs.Coded.{codes};
    ghost use Rattle.exh_array.specs.Pointers.{PointerArray};
    ghost use Rattle.exh_array.specs.Within.{IsKept};

    ghost Value = { PointerArray };

    ghost coded = { Prim.hlevel (codes) };

    ghost view = { λ a. record { ward_bits = a.ward_bits; depth = a.depth; pointers = a.pointers.items } };

    ghost invariant = { λ a. IsKept a.deepest (record { ward_bits = a.ward_bits; depth = a.depth; pointers = a.pointers.items }) };
}

impl Pointers {
    /// The pointers of the table with no entry, in a file of so many ward bits, at most `LIMIT`: one
    /// for each ward, to page 0. An `AllocError` where memory is refused.
    pub fn new(alloc: Global, ward_bits: u8) -> Result<Pointers, AllocError>
        requires { ward_bits ≤ LIMIT }
        ensures array { IfOk result (IsArrayOf map.empty) }
        ensures ward_bits { IfOk result (λ array. array.ward_bits ≡ ward_bits) }
    {
        let wards = 1usize << ward_bits;
        let pointer = Pointer {
            page: 0,
            local_depth: ward_bits,
        };
        Ok(Pointers {
            ward_bits,
            depth: ward_bits,
            deepest: wards,
            pointers: Vec::from_elem(alloc, pointer, wards)?,
        })
    }

    /// The file's ward bits, at most `LIMIT`. It takes no memory.
    pub fn ward_bits(&self) -> u8
        ensures bits { result ≡ self.now.ward_bits }
        ensures limit { result ≤ LIMIT }
    {
        self.ward_bits
    }

    /// The page that the table names for a pseudokey. It takes no memory.
    pub fn page(&self, pseudokey: u64) -> PageNo
        ensures pointer { NamesPageOf self.now pseudokey result }
        ensures page { (table : TableMap) → IsArrayOf table self.now → result ≡ (walk_of table self.now.ward_bits pseudokey).page }
    {
        self.pointer(pseudokey).page
    }

    /// The local depth of a pseudokey: the length of the leaf where its walk stops, in bits (Fagin et
    /// al. 1979). It takes no memory.
    pub fn local_depth(&self, pseudokey: u64) -> u8
        ensures length { (table : TableMap) → IsArrayOf table self.now → result ≡ length (walk_of table self.now.ward_bits pseudokey).prefix }
        ensures limit { result ≤ LIMIT }
    {
        self.pointer(pseudokey).local_depth
    }

    /// The depth of the directory: the greatest length of a leaf, over all wards (Fagin et al.
    /// 1979). It takes no memory.
    pub fn depth(&self) -> u8
        ensures own { result ≡ self.now.depth }
        ensures limit { result ≤ LIMIT }
        ensures depth { (table : TableMap) → IsArrayOf table self.now → IsDepth (leaves_of table self.now.ward_bits) result }
        ensures computed { (table : TableMap) → IsArrayOf table self.now → result ≡ depth_of table self.now.ward_bits }
    {
        self.depth
    }

    /// Brings the pointers up to a table that differs at most at the prefix from the one whose they
    /// are. Only pointers of the prefix's own range change, and none where walks go on from it as they
    /// did; the array is doubled as often as the new depth asks, and halved as often as it may be
    /// (Fagin et al. 1979). Where memory is refused, an `AllocError`, the pointers are as before; it is
    /// asked for only where the depth grows.
    pub fn update(&mut self, table: &Table, prefix: Prefix) -> Result<(), AllocError>
        requires { (before : TableMap) × IsArrayOf before self.old × DifferAtMostAt prefix before table.now }
        ensures array { OnOk result (IsArrayOf table.now self.new) }
        ensures ward_bits { self.new.ward_bits ≡ self.old.ward_bits }
        ensures err { OnErr result (self.new ≡ self.old) }
        ensures deeper { OnErr result (self.old.depth < depth_of table.now self.old.ward_bits) }
    {
        let ward_bits = self.ward_bits;
        let Some(at) = self.place(prefix) else {
            return Ok(());
        };
        if self.goes_on_over(&at, table.split_at(ward_bits, &at)) {
            return Ok(());
        }
        self.deepen(table.depth_below(ward_bits, &at))?;
        self.point_below(table, &at);
        self.flatten();
        Ok(())
    }

    /// Pointers equal to these. An `AllocError` where memory is refused.
    pub fn try_clone(&self) -> Result<Pointers, AllocError>
        ensures { IfOk result (λ array. array ≡ self.now) }
    {
        Ok(Pointers {
            pointers: self.pointers.clone()?,
            ..*self
        })
    }

    fn pointer(&self, pseudokey: u64) -> Pointer
        ensures at { pointer_at self.now pseudokey ≡ Some result }
        ensures limit { result.local_depth ≤ LIMIT }
    {
        self.pointers[leading(self.depth, pseudokey) as usize]
    }

    // The place of a prefix, where walks come to it. Over zeros alone they stay on its page.
    fn place(&self, prefix: Prefix) -> Option<Leaf>
        requires { self.now.ward_bits ≤ LIMIT }
        ensures place { (table : TableMap) → HasLeavesOf table self.now → IsPlaceIn table self.now.ward_bits prefix result }
        ensures within { length prefix ≤ LIMIT }
    {
        let first = self.pointer(prefix.low());
        if first.local_depth < prefix.len() {
            return None;
        }
        Some(Leaf {
            prefix,
            page: first.page,
        })
    }

    // Whether it is seen at two pointers that walks go on from a place over a split with that right page,
    // or stop there where none is given. Over a one and zeros they stay on the right page.
    fn goes_on_over(&self, at: &Leaf, split: Option<PageNo>) -> bool
        requires { self.now.ward_bits ≤ LIMIT }
        ensures short { IsTrue result → length at.now.prefix < LIMIT }
        ensures split { IsTrue result → (table : TableMap) → HasLeavesOf table self.now → walk_along table self.now.ward_bits at.now.prefix ≡ at.now → splits_above table self.now.ward_bits at.now.prefix ≡ split }
    {
        let Some(right_half) = at.prefix.child(true) else {
            return false;
        };
        let first = self.pointer(at.prefix.low());
        match split {
            None => first.local_depth == at.prefix.len(),
            Some(right) => {
                first.local_depth > at.prefix.len() && self.page(right_half.low()) == right
            }
        }
    }

    // Doubles the array until it is that deep.
    fn deepen(&mut self, depth: u8) -> Result<(), AllocError>
        requires { depth ≤ LIMIT }
        ensures ward_bits { self.new.ward_bits ≡ self.old.ward_bits }
        ensures depth { OnOk result (self.new.depth ≡ max self.old.depth depth) }
        ensures same { OnOk result (PointTheSame self.new self.old) }
        ensures err { OnErr result (self.new ≡ self.old) }
        ensures deeper { OnErr result (self.old.depth < depth) }
    {
        if depth <= self.depth {
            return Ok(());
        }
        let more = depth - self.depth;
        let many = self.pointers.len() << more;
        let mut pointers = Vec::with_capacity(*self.pointers.allocator(), many)?;
        for at in 0..many {
            pointers.push_reserved(self.pointers[at >> more]);
        }
        self.pointers = pointers;
        self.depth = depth;
        self.deepest = 0;
        Ok(())
    }

    // Points to the leaves that walks from a place come to.
    fn point_below(&mut self, table: &Table, at: &Leaf)
        requires within { length at.now.prefix ≤ LIMIT }
        requires deep { depth_below (splits_above table.now self.old.ward_bits) (LIMIT - length at.now.prefix) at.now ≤ self.old.depth }
        ensures { IsPointedBelow table.now at.now self.old self.new }
    {
        let Some(right) = table.split_at(self.ward_bits, at) else {
            self.point(at);
            return;
        };
        self.point_below(table, &at.step(false, right));
        self.point_below(table, &at.step(true, right));
    }

    // Points to a leaf from each list of leading bits that its prefix begins.
    fn point(&mut self, leaf: &Leaf)
        requires { length leaf.now.prefix ≤ self.old.depth }
        ensures ward_bits { self.new.ward_bits ≡ self.old.ward_bits }
        ensures depth { self.new.depth ≡ self.old.depth }
        ensures inside { (pseudokey : ℕ) → pseudokey < 2 ^ 64 → Begins leaf.now.prefix pseudokey → pointer_at self.new pseudokey ≡ Some (pointer_to leaf.now) }
        ensures outside { (pseudokey : ℕ) → pseudokey < 2 ^ 64 → (Begins leaf.now.prefix pseudokey → ⊥) → pointer_at self.new pseudokey ≡ pointer_at self.old pseudokey }
    {
        let from = leading(self.depth, leaf.prefix.low()) as usize;
        let to = from + (1 << (self.depth - leaf.prefix.len()));
        for at in from..to {
            self.set(
                at,
                Pointer {
                    page: leaf.page,
                    local_depth: leaf.prefix.len(),
                },
            );
        }
    }

    // Changes one pointer.
    fn set(&mut self, at: usize, pointer: Pointer)
        requires there { at < length self.old.pointers }
        requires within { pointer.local_depth ≤ self.old.depth }
        ensures { self.new ≡ record self.old { pointers = slice_set self.old.pointers at pointer } }
    {
        if self.pointers[at].local_depth == self.depth {
            self.deepest -= 1;
        }
        if pointer.local_depth == self.depth {
            self.deepest += 1;
        }
        self.pointers[at] = pointer;
    }

    // Halves the array until a leaf is as long as it is deep.
    fn flatten(&mut self)
        ensures ward_bits { self.new.ward_bits ≡ self.old.ward_bits }
        ensures array { (table : TableMap) → HasLeavesOf table self.old → IsArrayOf table self.new }
    {
        while self.deepest == 0 && self.depth > 0 {
            self.halve();
        }
    }

    // Keeps every other pointer: both of a pair are to one leaf.
    fn halve(&mut self)
        requires some { 0 < self.old.depth }
        requires flat { filter (is_deep self.old.depth) self.old.pointers ≡ [] }
        ensures ward_bits { self.new.ward_bits ≡ self.old.ward_bits }
        ensures depth { self.new.depth ≡ self.old.depth - 1 }
        ensures leaves { (table : TableMap) → HasLeavesOf table self.old → HasLeavesOf table self.new }
    {
        let half = self.pointers.len() / 2;
        for at in 0..half {
            self.pointers[at] = self.pointers[2 * at];
        }
        self.pointers.truncate(half);
        self.depth -= 1;
        self.deepest = deepest_in(&self.pointers, self.depth);
    }
}

// How many pointers are to leaves of that length.
fn deepest_in(pointers: &[Pointer], depth: u8) -> usize
    ensures { result ≡ length (filter (is_deep depth) pointers.now) }
{
    pointers
        .iter()
        .filter(|pointer| pointer.local_depth == depth)
        .count()
}
