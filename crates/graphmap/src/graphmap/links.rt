ghost use Rattle.graphmap.specs.Links.{HasArc, links_left};
ghost use Rattle.graphmap.specs.Maps.{map_model};
ghost use Rattle.graphmap.specs.States.{state};
ghost use Rattle.map_model.specs.Lists.{All};

use super::open::OpenMap;
use super::walk::LinksDirected;
use keys::{Key, NodeKey};
use map_layout::IndexedKey;
use map_model::CompactDirection;
use std::alloc::AllocError;

/// Shows the neighbors of a node in a direction, in the sequence of the node's links.
#[derive_where(Clone, Copy; N: Copy, E: Copy)]
pub struct NeighborsDirected<'m, 'a, N, E> {
    links: LinksDirected<'m, 'a, N, E>,
}

/// Shows the edges from or to a node, by direction, in the sequence of the node's links.
pub struct EdgesDirected<'m, 'a, N, E> {
    links: LinksDirected<'m, 'a, N, E>,
    ghost each: { ∥ All (HasArc links.node.key links.node.index.value links.direction (map_model links.map.now).arcs) (links_left (state links.map.now.tables) links.node.index.value links.direction links.place) ∥₁ },
}

// By hand, since `Clone` cannot be derived over a ghost field.
impl<'m, 'a, N: Copy, E: Copy> Copy for EdgesDirected<'m, 'a, N, E> {}

impl<'m, 'a, N: Copy, E: Copy> Clone for EdgesDirected<'m, 'a, N, E> {
    ghost use Rattle.std.specs.Prelude.{◌≡◌, ⊤};

    ghost is_clone = { λ x y. y.links ≡ x.links };

    ghost is_infallible = { λ _. ⊤ };

    fn clone(&self) -> Result<Self, AllocError> {
        Ok(EdgesDirected {
            links: self.links.clone()?,
        })
    }
}

impl<'m, 'a, N: NodeKey, E: Copy> OpenMap<'m, 'a, N, E> {
    ghost use Rattle.std.specs.Prelude.{◌≡◌};
    ghost use Rattle.graphmap.specs.Cursors.{neighbors_left, edges_left};
    ghost use Rattle.graphmap.specs.Links.{ToCome};
    ghost use Rattle.map_model.specs.Shown.{links_shown, neighbors_shown, edges_shown};

    /// Return an iterator of all neighbors that have an edge between them and `a`, in the specified direction.
    ///
    /// Shows nothing if the node doesn't exist, and a loop in either direction.
    pub fn neighbors_directed(
        &self,
        a: N,
        direction: CompactDirection,
    ) -> NeighborsDirected<'m, 'a, N, E>
        ensures same { (result.links.map.now ≡ self.now.map.now) × (result.links.node.index.value ≡ N.NodeKey.index a) × (result.links.direction ≡ direction) }
        ensures begins { ∥ ToCome (state self.now.map.now.tables) (N.NodeKey.index a) direction result.links.place 0 (links_shown (map_model self.now.map.now) (N.NodeKey.index a) direction) ∥₁ }
        ensures all { neighbors_left result ≡ neighbors_shown N.NodeKey.index (map_model self.now.map.now) a direction }
    {
        let node = IndexedKey::new(a);
        let links = LinksDirected::new(self.map, node, direction);
        NeighborsDirected { links }
    }

    /// Return an iterator of the edges from `a`, or for `Incoming` of those to `a`, each with its two ends and its weight.
    ///
    /// Shows nothing if the node doesn't exist, and a loop in either direction. No link lacks its edge.
    pub fn edges_directed(&self, a: N, direction: CompactDirection) -> EdgesDirected<'m, 'a, N, E>
        ensures same { (result.links.map.now ≡ self.now.map.now) × (result.links.node.key ≡ a) × (result.links.node.index.value ≡ N.NodeKey.index a) × (result.links.direction ≡ direction) }
        ensures begins { ∥ ToCome (state self.now.map.now.tables) (N.NodeKey.index a) direction result.links.place 0 (links_shown (map_model self.now.map.now) (N.NodeKey.index a) direction) ∥₁ }
        ensures all { edges_left result ≡ edges_shown N.NodeKey.index (map_model self.now.map.now) a direction }
        ensures each { ∥ All (HasArc a (N.NodeKey.index a) direction (map_model self.now.map.now).arcs) (links_shown (map_model self.now.map.now) (N.NodeKey.index a) direction) ∥₁ }
    {
        EdgesDirected {
            links: LinksDirected::new(self.map, IndexedKey::new(a), direction),
        }
    }
}

impl<'m, 'a, N: NodeKey, E: Copy> Iterator for NeighborsDirected<'m, 'a, N, E> {
    ghost use Rattle.graphmap.specs.Cursors.{neighbors_left, NextNeighbor};
    ghost use Rattle.std.specs.Iterator.{item_count};

    type Item = N;

    ghost next_gives = { λ s r t. NextNeighbor s r t };

    ghost remaining = { item_count (λ neighbors. neighbors_left neighbors) };

    /// The next neighbor; none at the end.
    fn next(&mut self) -> Option<N> {
        self.links.next().map(|neighbor| neighbor.key)
    }
}

impl<'m, 'a, N: NodeKey, E: Copy> Iterator for EdgesDirected<'m, 'a, N, E> {
    ghost use Rattle.graphmap.specs.Cursors.{edges_left, NextEdge};
    ghost use Rattle.std.specs.Iterator.{item_count};

    type Item = (N, N, E);

    ghost next_gives = { λ s r t. NextEdge s r t };

    ghost remaining = { item_count (λ edges. edges_left edges) };

    /// The next edge, its two ends and its weight; none at the end.
    fn next(&mut self) -> Option<(N, N, E)> {
        let LinksDirected {
            map,
            node,
            direction,
            ..
        } = self.links;
        let neighbor = self.links.next()?;
        map.tables.edge_with(node, direction, neighbor)
    }
}
