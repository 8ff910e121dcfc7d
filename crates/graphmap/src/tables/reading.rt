ghost use Rattle.std.specs.Prelude.{◌≡◌, ◌+◌, ◌^◌, ◌<◌, true, is_some};
ghost use Rattle.graphmap.specs.States.{state};
ghost use Rattle.map_layout.specs.Layout.{model};
ghost use Rattle.network.specs.declared.direction.CompactDirection.{CompactDirection};
ghost use Rattle.map_model.specs.Model.{weight_at};
ghost use Rattle.map_model.specs.Shown.{nodes_shown, all_edges_shown, edge_of};
ghost use Rattle.std.specs.List.{slice_get};

use super::{Tables, indices};
use keys::{Ends, NodeIndex};
use map_layout::IndexedKey;
use map_model::CompactDirection;

impl<'a, N: Copy, E: Copy> Tables<'a, N, E> {
    /// The node at a position of the table.
    pub(crate) fn node_shown(&self, i: u32) -> Option<N>
        ensures within { is_some result ≡ true → i + 1 < 2 ^ 32 }
        ensures answer { result ≡ slice_get (nodes_shown (model (state self.now))) i }
    {
        self.nodes.at(i).map(|item| item.value.key)
    }

    /// The arc at a position of the table.
    pub(crate) fn edge_shown(&self, i: u32) -> Option<(N, N, E)>
        ensures within { is_some result ≡ true → i + 1 < 2 ^ 32 }
        ensures answer { result ≡ slice_get (all_edges_shown (model (state self.now))) i }
    {
        self.arcs.at(i).map(|item| (item.value.source, item.value.target, item.value.weight))
    }

    /// The weight of an arc.
    pub(crate) fn edge_weight(&self, ends: Ends<NodeIndex>) -> Option<E>
        ensures { result ≡ weight_at ends.source.value ends.target.value (model (state self.now)).arcs }
    {
        self.arcs.get(&ends).map(|arc| arc.weight)
    }

    /// The arc from or to a node, by direction, whose other end is a neighbor.
    pub(crate) fn edge_with(
        &self,
        node: IndexedKey<N>,
        direction: CompactDirection,
        neighbor: IndexedKey<N>,
    ) -> Option<(N, N, E)>
        ensures { (own : CompactDirection) → result ≡ edge_of node.key node.index.value direction (model (state self.now)).arcs (record { key = neighbor.key; index = neighbor.index.value; direction = own }) }
    {
        let (source, target) = match direction {
            CompactDirection::Outgoing => (node, neighbor),
            CompactDirection::Incoming => (neighbor, node),
        };
        let weight = self.edge_weight(indices(Ends { source, target }))?;
        Some((source.key, target.key, weight))
    }
}
