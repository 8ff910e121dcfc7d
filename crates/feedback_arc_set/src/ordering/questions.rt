ghost use Rattle.std.specs.Prelude.{◌≡◌, map, length};
ghost use Rattle.feedback_arc_set.specs.Orders.{place_of};
ghost use Rattle.feedback_arc_set.specs.Verdicts.{index_of, order_of, place_in};
ghost use Rattle.keyed_table.specs.Listing.{value_at};
ghost use Rattle.keyed_table.specs.Tables.{listing};
ghost use Rattle.std.specs.List.{slice_get};

use super::Ordering;
use crate::tables::WorkTables;
use keys::NodeIndex;

impl<'w> WorkTables<'w> {
    // The place that the entry of a node has.
    fn entry_place(&self, node: NodeIndex) -> Option<u32>
        ensures { result ≡ place_of (value_at node.value (listing self.now.nodes.table)) }
    {
        self.nodes.table.get(&node).map(|entry| entry.place)
    }
}

impl<'w> Ordering<'w> {
    /// How many nodes the order lists.
    pub fn touched(&self) -> u32
        ensures { result ≡ length (order_of self.now) }
    {
        self.touched
    }

    /// The nodes of the order, in its sequence.
    pub fn nodes(&self) -> &[NodeIndex]
        ensures { map (λ node. node.value) result.now ≡ order_of self.now }
    {
        &self.tables.order[..self.touched as usize]
    }

    /// The node at a place of the order, counted from 0.
    pub fn node_at(&self, place: u32) -> Option<NodeIndex>
        ensures { index_of result ≡ slice_get (order_of self.now) place }
    {
        self.nodes().get(place as usize).copied()
    }

    /// The place of a node in the order, if it has one.
    pub fn place(&self, node: NodeIndex) -> Option<u32>
        ensures { result ≡ place_in (order_of self.now) node.value }
    {
        self.tables.entry_place(node)
    }
}
