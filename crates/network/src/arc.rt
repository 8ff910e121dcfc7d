ghost use Rattle.std.specs.Prelude.{◌≡◌};
ghost use Rattle.network.specs.Network.{loop};

use keys::key::{Key, NodeKey};

/// A way from one node, the source, to one node, the target, with a weight.
#[derive(Clone, Copy)]
pub struct Arc<N, E> {
    pub source: N,
    pub target: N,
    pub weight: E,
}

impl<N: NodeKey, E: Copy> Arc<N, E> {
    /// Whether the arc comes back to the node that it leaves.
    pub fn is_loop(&self) -> bool
        ensures { result ≡ loop (N.NodeKey.index self.now.source, N.NodeKey.index self.now.target) }
    {
        self.source.same(&self.target)
    }
}
