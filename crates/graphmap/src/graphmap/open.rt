ghost use Rattle.std.specs.Prelude.{◌≡◌};
ghost use Rattle.graphmap.specs.Maps.{map_model};
ghost use Rattle.map_model.specs.Shown.{node_count, edge_count, contains_edge};

use super::{GraphMap, between};
use keys::{Key, NodeKey};

/// A map opened for reading. While it is in use the map cannot be edited.
#[derive(Clone, Copy)]
pub struct OpenMap<'m, 'a, N, E> {
    pub(crate) map: &'m GraphMap<'a, N, E>,
}

impl<'a, N: NodeKey, E: Copy> GraphMap<'a, N, E> {
    /// Opens the map for reading.
    pub fn open(&self) -> OpenMap<'_, 'a, N, E>
        ensures { result.map.now ≡ self.now }
    {
        OpenMap { map: self }
    }
}

impl<'m, 'a, N: NodeKey, E: Copy> OpenMap<'m, 'a, N, E> {
    /// Return the number of nodes in the graph.
    pub fn node_count(&self) -> u32
        ensures { result ≡ node_count (map_model self.now.map.now) }
    {
        self.map.tables.node_count()
    }

    /// Return the number of edges in the graph.
    pub fn edge_count(&self) -> u32
        ensures { result ≡ edge_count (map_model self.now.map.now) }
    {
        self.map.tables.edge_count()
    }

    /// Return `true` if the edge connecting `a` with `b` is contained in the graph.
    pub fn contains_edge(&self, a: N, b: N) -> bool
        ensures { result ≡ contains_edge N.NodeKey.index (map_model self.now.map.now) a b }
    {
        self.map.tables.contains_edge(between(a, b))
    }
}
