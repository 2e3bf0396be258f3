ghost use Rattle.std.specs.Prelude.{◌≡◌, ◌<◌, [], length, get_or, false};
ghost use Rattle.exh_prefix.specs.Bits.{word_bits};
ghost use Rattle.exh_prefix.specs.Prefix.{Begins};
ghost use Rattle.exh_prefix.specs.declared.prefix.TheConstants.{LIMIT};

use exh_prefix::{LIMIT, PageNo, Prefix};

/// A place that walks through a table come to, such as a leaf, where they stop: a prefix with its
/// page.
#[derive(Clone, Copy)]
pub struct Leaf {
    /// The bits that all pseudokeys of the place begin with.
    pub prefix: Prefix,
    /// The page that the table names for them.
    pub page: PageNo,
}

impl Leaf {
    ghost use Rattle.exh_table.specs.TableWalk.{step};

    /// Where all walks begin: the empty prefix, with page 0.
    pub fn root() -> Leaf
        ensures { result ≡ record { prefix = []; page = 0 } }
    {
        Leaf {
            prefix: Prefix::new(0, 0).unwrap(),
            page: 0,
        }
    }

    // The bit that follows the prefix in a pseudokey that it begins.
    pub(crate) fn next_bit(&self, pseudokey: u64) -> bool
        requires room { length self.now.prefix < LIMIT }
        requires begins { Begins self.now.prefix pseudokey }
        ensures { result ≡ get_or (word_bits pseudokey) (length self.now.prefix) false }
    {
        let right = self.prefix.child(true).unwrap();
        right.begins(pseudokey)
    }

    /// One bit further over a split: the bit 1 leads to its right page, the bit 0 keeps the page.
    /// The prefix is shorter than `LIMIT`.
    pub fn step(&self, bit: bool, right: PageNo) -> Leaf
        requires { length self.now.prefix < LIMIT }
        ensures { result ≡ step self.now bit right }
    {
        Leaf {
            prefix: self.prefix.child(bit).unwrap(),
            page: if bit { right } else { self.page },
        }
    }
}
