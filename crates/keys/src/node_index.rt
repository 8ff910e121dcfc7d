ghost use Rattle.std.specs.Prelude.{◌≡◌, ◌^◌, ◌<◌, Some};
ghost use Rattle.std.specs.Fmt.{decimal};
ghost use Rattle.std.proofs.Common.{rules, arith};

use crate::key::{Key, NodeKey};
use std::fmt;

// A type of its own, as `Junction` and `FasNodeIndex` are, though all hold a `u32`: none can be taken for another.
/// Names a node of a network.
#[derive(Clone, Copy, PartialEq, Eq, Debug)]
pub struct NodeIndex {
    value: u32,
    ghost small: { value < 2 ^ 32 },
}

impl NodeIndex {
    pub fn new(value: u32) -> NodeIndex
        ensures { result.value ≡ value }
    {
        NodeIndex { value }
    }

    pub fn get(&self) -> u32
        ensures { result ≡ self.now.value }
    {
        self.value
    }
}

impl Key for NodeIndex {
    ghost code = { λ n. n.value };

    ghost small = { Prim.search rules };

    ghost apart = { Prim.grind (arith, Self.row.coded.inj) };

    fn number(&self) -> u64 {
        u64::from(self.get())
    }
}

impl NodeKey for NodeIndex {
    ghost index = { λ n. n.value };

    ghost narrow = { Prim.search rules };

    ghost differs = { Prim.grind (arith, Self.row.coded.inj) };

    ghost numbered = { Prim.search rules };

    fn node_index(&self) -> NodeIndex {
        *self
    }
}

impl fmt::Display for NodeIndex {
    ghost output = { λ n. Some (decimal n.value) };

    fn fmt<W: fmt::Write>(&self, f: &mut fmt::Formatter<W>) -> fmt::Result {
        write!(f, "{}", self.get())
    }
}
