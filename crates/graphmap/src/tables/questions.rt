ghost use Rattle.std.specs.Prelude.{◌≡◌};
ghost use Rattle.graphmap.specs.States.{state};
ghost use Rattle.map_layout.specs.Layout.{model};
ghost use Rattle.map_model.specs.Lists.{has};
ghost use Rattle.map_model.specs.Model.{between};
ghost use Rattle.map_model.specs.Shown.{node_count, edge_count};

use super::Tables;
use keys::{Ends, NodeIndex};

impl<'a, N: Copy, E: Copy> Tables<'a, N, E> {
    /// How many nodes there are.
    #[tactic(auto, using(map_layout::proofs::Adding::many_nodes))]
    pub(crate) fn node_count(&self) -> u32
        ensures { result ≡ node_count (model (state self.now)) }
    {
        self.nodes.len()
    }

    /// How many arcs there are.
    #[tactic(auto, using(map_layout::proofs::Adding::many_arcs))]
    pub(crate) fn edge_count(&self) -> u32
        ensures { result ≡ edge_count (model (state self.now)) }
    {
        self.arcs.len()
    }

    /// Whether the arc between two nodes is there.
    pub(crate) fn contains_edge(&self, ends: Ends<NodeIndex>) -> bool
        ensures { result ≡ has (between ends.source.value ends.target.value) (model (state self.now)).arcs }
    {
        self.arcs.contains(&ends)
    }
}
