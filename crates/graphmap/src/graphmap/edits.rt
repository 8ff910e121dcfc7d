ghost use Rattle.std.specs.Prelude.{◌≡◌};
ghost use Rattle.graphmap.specs.Maps.{map_model};
ghost use Rattle.map_model.specs.Model.{node_added, edge_added, node_removed, edge_removed};

use super::{GraphMap, between};
use crate::tables::Tables;
use fault::Fault;
use keys::{Ends, Key, NodeKey};
use map_layout::IndexedKey;

impl<'a, N: NodeKey, E: Copy> GraphMap<'a, N, E> {
    /// Add node `n` to the graph. Answers the key given, or fault 2 where a new node finds no place.
    pub fn add_node(&mut self, n: N) -> Result<N, Fault>
        ensures answer { result ≡ (node_added N.NodeKey.index (map_model self.old) n).0 }
        ensures shown { map_model self.new ≡ (node_added N.NodeKey.index (map_model self.old) n).1 }
    {
        self.tables.add_node(IndexedKey::new(n))
    }

    /// Add an edge connecting `a` and `b` to the graph, with associated data `weight`.
    ///
    /// Inserts nodes `a` and/or `b` if they aren't already part of the graph. Answers `None` if the edge did not previously
    /// exist, otherwise the associated data is updated and the old value is the answer. A new edge gets fault 2 where its
    /// new nodes find no place, and else fault 3 where the edge finds none.
    pub fn add_edge(&mut self, a: N, b: N, weight: E) -> Result<Option<E>, Fault>
        ensures answer { result ≡ (edge_added N.NodeKey.index (map_model self.old) a b weight).0 }
        ensures shown { map_model self.new ≡ (edge_added N.NodeKey.index (map_model self.old) a b weight).1 }
    {
        let ends = Ends {
            source: IndexedKey::new(a),
            target: IndexedKey::new(b),
        };
        self.tables.add_edge(ends, weight)
    }

    /// Remove edge from `a` to `b` from the graph and return the edge weight, or `None` if the edge didn't exist.
    pub fn remove_edge(&mut self, a: N, b: N) -> Option<E>
        ensures answer { result ≡ (edge_removed N.NodeKey.index (map_model self.old) a b).0 }
        ensures shown { map_model self.new ≡ (edge_removed N.NodeKey.index (map_model self.old) a b).1 }
    {
        self.tables.remove_edge(between(a, b))
    }

    /// Remove node `n` from the graph, with its edges. Return `true` if it did exist.
    ///
    /// The time grows with the links of the node.
    pub fn remove_node(&mut self, n: N) -> bool
        ensures answer { result ≡ (node_removed N.NodeKey.index (map_model self.old) n).0 }
        ensures shown { map_model self.new ≡ (node_removed N.NodeKey.index (map_model self.old) n).1 }
    {
        self.tables.remove_node(n.node_index())
    }
}
