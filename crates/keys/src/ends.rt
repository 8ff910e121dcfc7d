ghost use Rattle.std.specs.Prelude.{◌≡◌, ℕ, ◌+◌, ◌*◌, ◌^◌, ◌<◌};
ghost use Rattle.keys.specs.Numbers.{pair_number};
ghost use Rattle.std.proofs.Common.{rules};

use crate::key::{Key, NodeKey};

/// The two ends of an arc.
#[derive(Clone, Copy, PartialEq, Eq, Debug)]
pub struct Ends<N> {
    pub source: N,
    pub target: N,
}

impl<N: NodeKey> Key for Ends<N> {
    ghost code = { λ e. pair_number (N.NodeKey.index e.source) (N.NodeKey.index e.target) };

    ghost small = { Prim.search rules };

    ghost apart = { Prim.search rules };

    fn number(&self) -> u64 {
        let source = u64::from(self.source.node_index().get());
        let target = u64::from(self.target.node_index().get());
        source * 4_294_967_296 + target
    }
}
