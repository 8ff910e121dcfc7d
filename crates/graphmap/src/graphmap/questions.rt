ghost use Rattle.std.specs.Prelude.{◌≡◌};
ghost use Rattle.graphmap.specs.Maps.{map_model};
ghost use Rattle.map_model.specs.Shown.{node_count, edge_count, contains_edge};

use super::{GraphMap, between};
use keys::{Key, NodeKey};

// The questions of an open map, asked through `&mut`; both ask the tables.
impl<'a, N: NodeKey, E: Copy> GraphMap<'a, N, E> {
    /// Return the number of nodes in the graph. Nothing changes.
    pub fn node_count(&mut self) -> u32
        ensures answer { result ≡ node_count (map_model self.old) }
        ensures same { self.new ≡ self.old }
    {
        self.tables.node_count()
    }

    /// Return the number of edges in the graph. Nothing changes.
    pub fn edge_count(&mut self) -> u32
        ensures answer { result ≡ edge_count (map_model self.old) }
        ensures same { self.new ≡ self.old }
    {
        self.tables.edge_count()
    }

    /// Return `true` if the edge connecting `a` with `b` is contained in the graph. Nothing changes.
    pub fn contains_edge(&mut self, a: N, b: N) -> bool
        ensures answer { result ≡ contains_edge N.NodeKey.index (map_model self.old) a b }
        ensures same { self.new ≡ self.old }
    {
        self.tables.contains_edge(between(a, b))
    }
}
