ghost use Rattle.std.specs.Prelude.{◌≡◌};
ghost use Rattle.graphmap.specs.Cursors.{nodes_left, all_edges_left, NextNode, NextOfAllEdges};
ghost use Rattle.std.specs.Iterator.{item_count};

use super::GraphMap;
use super::open::OpenMap;
use keys::{Key, NodeKey};

// Two types, as in petgraph; one over both would need a trait with the list, and an implementation of it for each.
/// Shows the nodes of a map in the sequence of its table.
#[derive(Clone, Copy)]
pub struct Nodes<'m, 'a, N, E> {
    map: &'m GraphMap<'a, N, E>,
    position: u32,
}

/// Shows all edges of a map in the sequence of its table.
#[derive(Clone, Copy)]
pub struct AllEdges<'m, 'a, N, E> {
    map: &'m GraphMap<'a, N, E>,
    position: u32,
}

impl<'m, 'a, N: NodeKey, E: Copy> OpenMap<'m, 'a, N, E> {
    /// Return an iterator over the nodes of the graph.
    pub fn nodes(&self) -> Nodes<'m, 'a, N, E>
        ensures { (result.map.now ≡ self.now.map.now) × (result.position ≡ 0) }
    {
        Nodes {
            map: self.map,
            position: 0,
        }
    }

    /// Return an iterator over all edges of the graph with their weights.
    pub fn all_edges(&self) -> AllEdges<'m, 'a, N, E>
        ensures { (result.map.now ≡ self.now.map.now) × (result.position ≡ 0) }
    {
        AllEdges {
            map: self.map,
            position: 0,
        }
    }
}

impl<'m, 'a, N: NodeKey, E: Copy> Iterator for Nodes<'m, 'a, N, E> {
    type Item = N;

    ghost next_gives = { λ s r t. NextNode s r t };

    ghost remaining = { item_count (λ nodes. nodes_left nodes) };

    /// The next node; none at the end.
    fn next(&mut self) -> Option<N> {
        let node = self.map.tables.node_shown(self.position)?;
        self.position += 1;
        Some(node)
    }
}

impl<'m, 'a, N: NodeKey, E: Copy> Iterator for AllEdges<'m, 'a, N, E> {
    type Item = (N, N, E);

    ghost next_gives = { λ s r t. NextOfAllEdges s r t };

    ghost remaining = { item_count (λ edges. all_edges_left edges) };

    /// The next edge, its two ends and its weight; none at the end.
    fn next(&mut self) -> Option<(N, N, E)> {
        let edge = self.map.tables.edge_shown(self.position)?;
        self.position += 1;
        Some(edge)
    }
}
