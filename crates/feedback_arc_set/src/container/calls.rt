ghost use Rattle.std.specs.Prelude.{◌≡◌, ◌<◌, ◌≤◌, [], length, replicate, MatchOption, slice_index_or, slice_set};
ghost use Rattle.fas_layout.specs.Columns.{PlaceWritten};
ghost use Rattle.feedback_arc_set.specs.Containers.{nodes_of, keys_of, met_of, slots_of, Met, SameNames, Unlisted, unlisted_of, columns};
ghost use Rattle.keyed_table.specs.Chains.{blank_slot, room_of};
ghost use Rattle.keyed_table.specs.Tables.{listing, places};
ghost use Rattle.network.specs.Network.{meet};
ghost use Rattle.feedback_arc_set.specs.Nodes.{blank_node, blank_key};

use super::FasNodeContainer;
use crate::fas_node::FasNode;
use keys::{FasNodeIndex, NodeIndex};
use linked_list::container::Container;
use linked_list::position::LinkedListPosition;

impl<'w> FasNodeContainer<'w> {
    // The entry; a blank one past the last.
    pub(crate) fn node(&self, ix: FasNodeIndex) -> FasNode
        ensures { result ≡ slice_index_or (nodes_of self.now) ix.value blank_node }
    {
        self.table
            .at(ix.get())
            .map_or(FasNode::blank(), |item| item.value)
    }

    // The node that the entry is for.
    pub(crate) fn key(&self, ix: FasNodeIndex) -> NodeIndex
        ensures { result ≡ slice_index_or (keys_of self.now) ix.value blank_key }
    {
        self.table
            .at(ix.get())
            .map_or(NodeIndex::new(0), |item| item.key)
    }

    // Writes the entry; past the last nothing is written.
    pub(crate) fn set_node(&mut self, ix: FasNodeIndex, node: FasNode)
        ensures written { nodes_of self.new ≡ slice_set (nodes_of self.old) ix.value node }
        ensures names { SameNames self.new self.old }
    {
        let _ = self.table.set_at(ix.get(), node);
    }

    // How many entries there are.
    pub(crate) fn len(&self) -> u32
        ensures { result ≡ length (nodes_of self.now) }
    {
        self.table.len()
    }

    // Takes every entry out and blanks every entry place.
    pub(crate) fn clear(&mut self)
        ensures none { listing self.new.table ≡ [] }
        ensures blank { places self.new.table ≡ replicate (length (places self.old.table)) blank_slot }
    {
        self.table.clear();
    }

    // The entry of a node. A node that is met for the first time gets the next entry, unless there are `most` already.
    pub(crate) fn enter(&mut self, key: NodeIndex, most: u32) -> Option<FasNodeIndex>
        requires { most ≤ room_of (slots_of self.old) }
        ensures met { MatchOption result (most < length (meet key.value (met_of self.old))) (λ ix. Met self.old self.new key.value ix.value × (length (met_of self.old) ≤ most → length (met_of self.new) ≤ most)) }
        ensures slots { slots_of self.new ≡ slots_of self.old }
    {
        if let Some(i) = self.table.position(&key) {
            return Some(FasNodeIndex::new(i));
        }
        let next = self.table.len();
        if next >= most {
            return None;
        }
        let _ = self.table.insert(key, FasNode::blank());
        Some(FasNodeIndex::new(next))
    }

    // Writes the place in the order of the entry's node.
    pub(crate) fn set_place(&mut self, ix: FasNodeIndex, place: u32)
        ensures written { PlaceWritten (columns self.new) (columns self.old) ix.value place }
        ensures names { SameNames self.new self.old }
    {
        let node = self.node(ix).placed(place);
        self.set_node(ix, node);
    }
}

impl<'w> Container for FasNodeContainer<'w> {
    ghost positions = { λ c. (columns c).positions };

    ghost Rest = { Unlisted };

    ghost stripped = { unlisted_of };

    fn holds(&self, i: u32) -> bool {
        i < self.table.len()
    }

    fn position(&self, i: u32) -> Option<LinkedListPosition> {
        self.node(FasNodeIndex::new(i)).position
    }

    fn set_position(&mut self, i: u32, position: Option<LinkedListPosition>) {
        let ix = FasNodeIndex::new(i);
        let mut node = self.node(ix);
        node.position = position;
        self.set_node(ix, node);
    }
}
