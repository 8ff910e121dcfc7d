ghost use Rattle.std.specs.Prelude.{◌≡◌, [], length, IfOk, vec_len};
ghost use Rattle.feedback_arc_set.specs.Orders.{class_places, entry_places, neighbour_places, order_places};
ghost use Rattle.feedback_arc_set.specs.Verdicts.{order_of};
ghost use Rattle.heap_tables.specs.Sizes.{twice, twice_and_one};

use feedback_arc_set::{ClassPlace, FasNode, NeighbourPlace, Ordering};
use keyed_table::Slot;
use keys::NodeIndex;
use std::alloc::{AllocError, Global};

/// Tables of an ordering. What stands in a place is of no account: the ordering that is lent them blanks them.
#[derive(Drop)]
pub struct WorkTables {
    entries: Vec<Slot<NodeIndex, FasNode>>,
    neighbours: Vec<NeighbourPlace>,
    classes: Vec<ClassPlace>,
    order: Vec<NodeIndex>,
}

impl WorkTables {
    /// Tables with so many entry places and order places, and neighbour and class places for so many arcs.
    pub fn new(alloc: Global, nodes: usize, arcs: usize) -> Result<WorkTables, AllocError>
        ensures { IfOk result (λ tables. (vec_len tables.entries ≡ nodes) × (vec_len tables.neighbours ≡ twice arcs) × (vec_len tables.classes ≡ twice_and_one arcs) × (vec_len tables.order ≡ nodes)) }
    {
        let twice = arcs.saturating_mul(2);
        Ok(WorkTables {
            entries: vec![in alloc; Slot::blank(); nodes]?,
            neighbours: vec![in alloc; NeighbourPlace::blank(); twice]?,
            classes: vec![in alloc; ClassPlace::blank(); twice.saturating_add(1)]?,
            order: vec![in alloc; NodeIndex::new(0); nodes]?,
        })
    }

    /// An ordering in these tables, which holds the order of no nodes.
    pub fn ordering(&mut self) -> Ordering<'_>
        ensures nodes { order_of result ≡ [] }
        ensures entries { length (entry_places result.tables) ≡ vec_len self.old.entries }
        ensures neighbours { length (neighbour_places result.tables) ≡ vec_len self.old.neighbours }
        ensures classes { length (class_places result.tables) ≡ vec_len self.old.classes }
        ensures order { length (order_places result.tables) ≡ vec_len self.old.order }
    {
        Ordering::new(
            self.entries.as_mut_slice(),
            self.neighbours.as_mut_slice(),
            self.classes.as_mut_slice(),
            self.order.as_mut_slice(),
        )
    }
}
