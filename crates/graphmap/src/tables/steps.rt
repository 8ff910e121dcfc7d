ghost use Rattle.std.specs.Prelude.{◌≡◌, ◌+◌, ◌^◌, ◌<◌, if◌then◌else◌};
ghost use Rattle.graphmap.specs.States.{state};
ghost use Rattle.graphmap.specs.Places.{neighbors, positions_of};
ghost use Rattle.linked_list.specs.Chains.{can_swap, after_swap, start_after_swap};
ghost use Rattle.map_layout.specs.Steps.{lone, node_at, linked_at, swapped_out_of, dropped_out_of, new_place, place_taken, place_given, last_swapped};
ghost use Rattle.std.specs.Option.{unwrap_or};

use super::Tables;
use crate::link_place::LinkPlace;
use crate::places::set_neighbor;
use keys::NodeIndex;
use linked_list::list::LinkedList;
use linked_list::slots::Slots;
use linked_list::walk;
use map_layout::{IndexedKey, NodeRecord};

// What comes last in a list once its first entry has taken the place of another.
fn last_swapped(newest: Option<u32>, oldest: Option<u32>, place: u32) -> Option<u32>
    ensures { result ≡ last_swapped newest oldest place }
{
    if oldest == Some(place) {
        newest.filter(|first| *first != place)
    } else {
        oldest
    }
}

// Takes a place out of a list of links. The newest comes in its place.
#[tactic(auto, using(crate::proofs::Composing::by_test, crate::proofs::Composing::neighbors_kept))]
fn swap_link<N: Copy>(list: &mut LinkedList, links: &mut Slots<'_, LinkPlace<N>>, place: u32)
    ensures placed { positions_of links.new.slots.now ≡ (if can_swap (positions_of links.old.slots.now) list.old.start place then after_swap (positions_of links.old.slots.now) list.old.start place else positions_of links.old.slots.now) }
    ensures started { list.new.start ≡ (if can_swap (positions_of links.old.slots.now) list.old.start place then start_after_swap (positions_of links.old.slots.now) list.old.start place else list.old.start) }
    ensures kept { neighbors links.new.slots.now ≡ neighbors links.old.slots.now }
{
    let _swapped = list.swap_remove(links, place);
}

impl<'a, N: Copy, E: Copy> Tables<'a, N, E> {
    // The record of a node; one without links where the node is not there.
    fn node_or_new(&self, node: IndexedKey<N>) -> NodeRecord<N>
        ensures { result ≡ unwrap_or (node_at node.index.value (state self.now)) (lone node.key) }
    {
        self.nodes
            .get(&node.index)
            .unwrap_or(NodeRecord::new(node.key))
    }

    /// Gives a node, which is put last where it is new, a link at a place that is in no list.
    pub(crate) fn link(&mut self, node: IndexedKey<N>, place: u32, neighbor: IndexedKey<N>)
        ensures state { state self.new ≡ linked_at node.key node.index place neighbor (state self.old) }
    {
        let old = self.node_or_new(node);
        set_neighbor(&mut self.links, place, neighbor);
        let mut list = LinkedList { start: old.newest };
        let _pushed = list.push_front(&mut self.links, place);
        let record = NodeRecord {
            newest: list.start,
            oldest: old.oldest.or(Some(place)),
            ..old
        };
        let _ = self.nodes.insert(node.index, record);
    }

    // This and `drop_link` share four lines, fewer than a closure with its contract would take.
    /// Takes the link at a place out of a node's list. The newest link of the node comes in its place.
    pub(crate) fn swap_out(&mut self, index: NodeIndex, place: u32)
        ensures state { state self.new ≡ swapped_out_of index place (state self.old) }
    {
        let Some(node) = self.nodes.get(&index) else {
            return;
        };
        let mut list = LinkedList { start: node.newest };
        swap_link(&mut list, &mut self.links, place);
        let record = NodeRecord {
            newest: list.start,
            oldest: last_swapped(node.newest, node.oldest, place),
            ..node
        };
        let _ = self.nodes.insert(index, record);
    }

    /// Takes the oldest link of a node, at this place, out of its list.
    pub(crate) fn drop_link(&mut self, index: NodeIndex, place: u32)
        ensures state { state self.new ≡ dropped_out_of index place (state self.old) }
    {
        let Some(node) = self.nodes.get(&index) else {
            return;
        };
        let oldest = walk::prev(&self.links, place);
        let mut list = LinkedList { start: node.newest };
        let _removed = list.remove(&mut self.links, place);
        let record = NodeRecord {
            newest: list.start,
            oldest,
            ..node
        };
        let _ = self.nodes.insert(index, record);
    }

    /// The place of a new arc: an unused one, else a fresh one.
    pub(crate) fn take_place(&mut self) -> u32
        requires { self.old.fresh + 2 < 2 ^ 32 }
        ensures place { result ≡ new_place (state self.old) }
        ensures state { state self.new ≡ place_taken (state self.old) }
    {
        if let Some(place) = self.unused.pop(&mut self.links) {
            return place;
        }
        let place = self.fresh;
        self.fresh = place + 2;
        place
    }

    /// Keeps the place of an arc that goes for a later one.
    pub(crate) fn give_place(&mut self, place: u32)
        ensures state { state self.new ≡ place_given place (state self.old) }
    {
        let _pushed = self.unused.push_front(&mut self.links, place);
    }
}
