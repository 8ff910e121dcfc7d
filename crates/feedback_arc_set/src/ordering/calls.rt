ghost use Rattle.std.specs.Prelude.{◌≡◌, ◌+◌, ◌*◌, not, ◌||◌, [], length, replicate, nat_lt};
ghost use Rattle.feedback_arc_set.specs.Nodes.{blank_class, blank_neighbour};
ghost use Rattle.feedback_arc_set.specs.Orders.{class_places, entry_places, neighbour_places, order_places};
ghost use Rattle.feedback_arc_set.specs.Verdicts.{Leaves, answer, order_of, verdict};
ghost use Rattle.keyed_table.specs.Chains.{blank_slot};
ghost use Rattle.network.specs.Sources.{links};

use super::Ordering;
use crate::container::FasNodeContainer;
use crate::fas_node::FasNode;
use crate::places::{ClassPlace, NeighbourPlace};
use crate::tables::WorkTables;
use fault::Fault;
use keyed_table::{KeyedTable, Slot};
use keys::NodeIndex;
use network::ArcSource;

impl<'w> WorkTables<'w> {
    // Whether there are neighbour and class places for `arcs` arcs.
    fn fit(&self, arcs: u32) -> bool
        ensures { result ≡ not (nat_lt (length (neighbour_places self.now)) (2 * arcs) || nat_lt (length (class_places self.now)) (2 * arcs + 1)) }
    {
        let twice = 2 * (arcs as usize);
        self.neighbours.len() >= twice && self.classes.len() >= twice + 1
    }
}

impl<'w> Ordering<'w> {
    /// An order of no nodes in these tables. Entry, neighbour and class places are blanked.
    pub fn new(
        entries: &'w mut [Slot<NodeIndex, FasNode>],
        neighbours: &'w mut [NeighbourPlace],
        classes: &'w mut [ClassPlace],
        order: &'w mut [NodeIndex],
    ) -> Ordering<'w>
        ensures nodes { order_of result ≡ [] }
        ensures entries { entry_places result.tables ≡ replicate (length entries.old) blank_slot }
        ensures neighbours { neighbour_places result.tables ≡ replicate (length neighbours.old) blank_neighbour }
        ensures classes { class_places result.tables ≡ replicate (length classes.old) blank_class }
        ensures order { order_places result.tables ≡ order.old }
    {
        neighbours.fill(NeighbourPlace::blank());
        classes.fill(ClassPlace::blank());
        Ordering {
            tables: WorkTables {
                nodes: FasNodeContainer {
                    table: KeyedTable::new(entries),
                },
                neighbours,
                classes,
                order,
            },
            touched: 0,
        }
    }

    /// Orders the nodes of a source, and answers how many they are.
    ///
    /// Over 16,384 arcs are refused with `SourceTooLarge`, and fewer than two neighbour places for each arc or one more
    /// class place with `WorkTablesShort`; then the order that was held stays. Nodes that outnumber the order places or
    /// the first 4,096 entry places are refused with `WorkTablesShort` too; then no node has a place.
    pub fn greedy_feedback_arc_set<S: ArcSource>(&mut self, source: &S) -> Result<u32, Fault>
        ensures answer { result ≡ answer (verdict (links S.Node.index (S.ArcSource.arcs source.now)) self.old.tables) (links S.Node.index (S.ArcSource.arcs source.now)) }
        ensures leaves { Leaves (verdict (links S.Node.index (S.ArcSource.arcs source.now)) self.old.tables) (links S.Node.index (S.ArcSource.arcs source.now)) self.old self.new }
    {
        let arcs = source.arc_count();
        if arcs > 16384 {
            return Err(Fault::SourceTooLarge);
        }
        if !self.tables.fit(arcs) {
            return Err(Fault::WorkTablesShort);
        }
        let touched = self.tables.order_source(source, arcs);
        self.touched = touched.unwrap_or(0);
        touched.ok_or(Fault::WorkTablesShort)
    }
}
