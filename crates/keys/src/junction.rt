ghost use Rattle.std.specs.Prelude.{◌≡◌, ◌^◌, ◌<◌, Some};
ghost use Rattle.std.specs.Fmt.{decimal};
ghost use Rattle.std.proofs.Common.{rules, arith};

use crate::key::{Key, NodeKey};
use crate::node_index::NodeIndex;
use std::fmt;

/// A junction by its number, which is also its index.
#[derive(Clone, Copy, PartialEq, Eq, Debug)]
pub struct Junction {
    value: u32,
    ghost small: { value < 2 ^ 32 },
}

impl Junction {
    pub fn new(value: u32) -> Junction
        ensures { result.value ≡ value }
    {
        Junction { value }
    }

    pub fn get(&self) -> u32
        ensures { result ≡ self.now.value }
    {
        self.value
    }
}

impl Key for Junction {
    ghost code = { λ j. j.value };

    ghost small = { Prim.search rules };

    ghost apart = { Prim.grind (arith, Self.row.coded.inj) };

    fn number(&self) -> u64 {
        u64::from(self.get())
    }
}

impl NodeKey for Junction {
    ghost index = { λ j. j.value };

    ghost narrow = { Prim.search rules };

    ghost differs = { Prim.grind (arith, Self.row.coded.inj) };

    ghost numbered = { Prim.search rules };

    fn node_index(&self) -> NodeIndex {
        NodeIndex::new(self.get())
    }
}

impl fmt::Display for Junction {
    ghost output = { λ n. Some (decimal n.value) };

    fn fmt<W: fmt::Write>(&self, f: &mut fmt::Formatter<W>) -> fmt::Result {
        write!(f, "{}", self.get())
    }
}
