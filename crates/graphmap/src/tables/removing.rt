ghost use Rattle.std.specs.Prelude.{◌≡◌, ◌<◌, true, false, length, None};
ghost use Rattle.graphmap.specs.States.{state};
ghost use Rattle.map_layout.specs.Edits.{Good, ends_number, both_swapped_out, ArcRemoved, oldest_at, number_at, unlinked_at, cut, Cut};
ghost use Rattle.map_layout.specs.Layout.{Rep, model};
ghost use Rattle.map_layout.specs.Steps.{arc_at};
ghost use Rattle.map_model.specs.Model.{node_removed_at};

use super::Tables;
use crate::places::{neighbor_at, partner};
use keys::{Ends, NodeIndex};

// A link of a node: the node at its other end, and the place at which it stands.
#[derive(Clone, Copy)]
struct NodeLink {
    node: NodeIndex,
    other: NodeIndex,
    place: u32,
}

impl NodeLink {
    // The ends of the link's arc: an even place holds an outgoing link, an odd one an incoming link.
    fn ends(&self) -> Ends<NodeIndex>
        ensures { ends_number result.source result.target ≡ number_at self.now.place self.now.node self.now.other }
    {
        let NodeLink { node, other, place } = *self;
        if place % 2 == 0 {
            Ends {
                source: node,
                target: other,
            }
        } else {
            Ends {
                source: other,
                target: node,
            }
        }
    }
}

impl<'a, N: Copy, E: Copy> Tables<'a, N, E> {
    // Takes the links of an arc out of the lists of its two ends.
    fn unlink_both(&mut self, ends: Ends<NodeIndex>, place: u32)
        ensures state { state self.new ≡ both_swapped_out ends.source ends.target place (state self.old) }
    {
        self.swap_out(ends.source, place);
        if ends.source == ends.target {
            return;
        }
        self.swap_out(ends.target, partner(place));
    }

    /// Removes an arc with its links, and answers its weight.
    pub(crate) fn remove_edge(&mut self, ends: Ends<NodeIndex>) -> Option<E>
        ensures done { ArcRemoved ends.source ends.target (state self.old) result (state self.new) }
    {
        let arc = self.arcs.swap_remove(&ends)?;
        self.unlink_both(ends, arc.place);
        self.give_place(arc.place);
        Some(arc.weight)
    }

    // The place of the oldest link of a node.
    pub(crate) fn oldest(&self, index: NodeIndex) -> Option<u32>
        ensures { result ≡ oldest_at index.value (state self.now) }
    {
        self.nodes.get(&index)?.oldest
    }

    // Takes the oldest link of a node out, and the one at the other end of its arc.
    fn unlink_oldest(&mut self, link: NodeLink)
        ensures state { state self.new ≡ unlinked_at link.node link.other link.place (state self.old) }
    {
        self.drop_link(link.node, link.place);
        if link.other == link.node {
            return;
        }
        self.swap_out(link.other, partner(link.place));
    }

    // Removes the arc of the oldest link of a node; not so where there is none.
    fn cut(&mut self, link: NodeLink) -> bool
        ensures gone { result ≡ true → state self.new ≡ cut link.node link.other link.place (state self.old) }
        ensures fewer { result ≡ true → length (state self.new).arcs < length (state self.old).arcs }
        ensures absent { result ≡ false → arc_at (number_at link.place link.node link.other) (state self.old) ≡ None }
    {
        let Some(_) = self.arcs.swap_remove(&link.ends()) else {
            return false;
        };
        self.unlink_oldest(link);
        self.give_place(link.place - link.place % 2);
        true
    }

    // Whether there was one is what the loop that calls it asks.
    // Removes the arc of the oldest link of a node; not so where the node has none.
    fn drop_oldest(&mut self, index: NodeIndex) -> bool
        ensures fewer { result ≡ true → length (state self.new).arcs < length (state self.old).arcs }
        ensures gone { result ≡ true → Good (state self.old) → Cut index.value (state self.old) (state self.new) }
        ensures ended { result ≡ false → Good (state self.old) → (state self.new ≡ state self.old) × (oldest_at index.value (state self.old) ≡ None) }
    {
        let Some(place) = self.oldest(index) else {
            return false;
        };
        let Some(neighbor) = neighbor_at(&self.links, place) else {
            return false;
        };
        self.cut(NodeLink {
            node: index,
            other: neighbor.index,
            place,
        })
    }

    /// Removes a node, after its arcs in the sequence of its links.
    pub(crate) fn remove_node(&mut self, index: NodeIndex) -> bool
        ensures answer { result ≡ (node_removed_at (model (state self.old)) index.value).0 }
        ensures rep { Good (state self.old) → Rep (state self.new) }
        ensures shown { Good (state self.old) → model (state self.new) ≡ (node_removed_at (model (state self.old)) index.value).1 }
    {
        if !self.nodes.contains(&index) {
            return false;
        }
        while self.drop_oldest(index) {}
        let _ = self.nodes.swap_remove(&index);
        true
    }
}
