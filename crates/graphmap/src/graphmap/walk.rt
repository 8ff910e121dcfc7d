ghost use Rattle.graphmap.specs.Links.{WalkEnds};
ghost use Rattle.graphmap.specs.States.{state};

use super::GraphMap;
use crate::places::neighbor_at;
use crate::tables::walking::shows;
use keys::NodeKey;
use linked_list::walk;
use map_layout::IndexedKey;
use map_model::CompactDirection;
use std::alloc::AllocError;

/// A walk over the links of a node that a direction shows, in the sequence of the node's links.
pub struct LinksDirected<'m, 'a, N, E> {
    pub(super) map: &'m GraphMap<'a, N, E>,
    pub(super) node: IndexedKey<N>,
    pub(super) direction: CompactDirection,
    // the place from which on the links are still to come
    pub(super) place: Option<u32>,
    ghost ends: { WalkEnds (state map.now.tables) place },
}

// By hand, since `Clone` cannot be derived over a ghost field.
impl<'m, 'a, N: Copy, E: Copy> Copy for LinksDirected<'m, 'a, N, E> {}

impl<'m, 'a, N: Copy, E: Copy> Clone for LinksDirected<'m, 'a, N, E> {
    ghost use Rattle.std.specs.Prelude.{◌≡◌, ⊤};

    ghost is_clone = { λ x y. y ≡ x };

    ghost is_infallible = { λ _. ⊤ };

    fn clone(&self) -> Result<Self, AllocError> {
        Ok(LinksDirected {
            map: self.map,
            node: IndexedKey {
                key: self.node.key,
                index: self.node.index,
            },
            direction: self.direction,
            place: self.place,
        })
    }
}

impl<'m, 'a, N: NodeKey, E: Copy> LinksDirected<'m, 'a, N, E> {
    ghost use Rattle.std.specs.Prelude.{◌≡◌};
    ghost use Rattle.graphmap.specs.Cursors.{walk_left};
    ghost use Rattle.graphmap.specs.Links.{ToCome, LeadsTo};
    ghost use Rattle.graphmap.specs.Maps.{map_model};
    ghost use Rattle.map_model.specs.Shown.{links_shown};

    /// The walk from the oldest link of a node on.
    pub(super) fn new(
        map: &'m GraphMap<'a, N, E>,
        node: IndexedKey<N>,
        direction: CompactDirection,
    ) -> LinksDirected<'m, 'a, N, E>
        ensures same { (result.map.now ≡ map.now) × (result.node ≡ node) × (result.direction ≡ direction) }
        ensures begins { ∥ ToCome (state map.now.tables) node.index.value direction result.place 0 (links_shown (map_model map.now) node.index.value direction) ∥₁ }
    {
        LinksDirected {
            map,
            node,
            direction,
            place: map.tables.oldest(node.index),
        }
    }

    /// The node at the other end of the next link; none at the end.
    pub(super) fn next(&mut self) -> Option<IndexedKey<N>>
        ensures first { LeadsTo (walk_left self.old) result (walk_left self.new) }
        ensures same { (self.new.map.now ≡ self.old.map.now) × (self.new.node ≡ self.old.node) × (self.new.direction ≡ self.old.direction) }
    {
        while let Some(place) = self.place {
            let links = &self.map.tables.links;
            self.place = walk::prev(links, place);
            if let Some(neighbor) = neighbor_at(links, place) {
                if shows(self.node.index, self.direction, place, neighbor) {
                    return Some(neighbor);
                }
            }
        }
        None
    }
}
