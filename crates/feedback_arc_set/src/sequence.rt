ghost use Rattle.std.specs.Prelude.{◌≡◌, ◌*◌, ◌<◌, ◌≤◌, List, [], length, replicate, MatchOption};
ghost use Rattle.fas_layout.specs.Laying.{EndsBelow, Entered};
ghost use Rattle.feedback_arc_set.specs.Containers.{AllBlank, OwnNames, SameNames, met_of, nodes_of, slots_of};
ghost use Rattle.feedback_arc_set.specs.Nodes.{blank_class, blank_neighbour, neighbours_of, starts_of, BlankFrom};
ghost use Rattle.feedback_arc_set.specs.Steps.{Ranked};
ghost use Rattle.keyed_table.specs.Chains.{blank_slot, room_of};
ghost use Rattle.keyed_table.specs.Tables.{listing, places};
ghost use Rattle.network.specs.Network.{Link, touched};
ghost use Rattle.network.specs.Sources.{links};

use crate::buckets::Buckets;
use crate::container::FasNodeContainer;
use crate::entering::enter_all;
use crate::halves::Halves;
use crate::laying::lay_out;
use crate::neighbours::blank_first;
use crate::places::{ClassPlace, NeighbourPlace};
use crate::rounds::take_all;
use keys::NodeIndex;
use network::ArcSource;

// The greedy order of the nodes of the `arcs` arcs whose ends are entered goes to the front of the order places. The
// answer is how many they are.
pub(crate) fn good_node_sequence(
    nodes: &mut FasNodeContainer<'_>,
    neighbours: &mut [NeighbourPlace],
    classes: &mut [ClassPlace],
    order: &mut [NodeIndex],
    arcs: u32,
) -> u32
    requires few { arcs ≤ 16384 }
    requires room { 2 * arcs ≤ length neighbours.old }
    requires wide { 2 * arcs < length classes.old }
    requires places { length (nodes_of nodes.old) ≤ length order.old }
    requires ends { EndsBelow (neighbours_of neighbours.old).nodes arcs (length (nodes_of nodes.old)) }
    requires blank { AllBlank nodes.old }
    requires empty { classes.old ≡ replicate (length classes.old) blank_class }
    ensures ranked { (network : List Link) → length network ≡ arcs → Entered network arcs (met_of nodes.old) (neighbours_of neighbours.old).nodes → OwnNames nodes.old → Ranked network nodes.new order.old order.new }
    ensures count { result ≡ length (nodes_of nodes.old) }
    ensures names { SameNames nodes.new nodes.old }
    ensures neighbours { BlankFrom neighbours.old (2 * arcs) → neighbours.new ≡ replicate (length neighbours.old) blank_neighbour }
    ensures classes { classes.new ≡ replicate (length classes.old) blank_class }
{
    let mut buckets = Buckets {
        places: classes,
        arcs,
        top: 2 * (arcs as usize),
    };
    let count = nodes.len();
    lay_out(nodes, neighbours, &mut buckets);
    let mut halves = Halves {
        places: order,
        front: 0,
        back: count,
    };
    take_all(nodes, &mut buckets, neighbours, &mut halves);
    blank_first(neighbours, 2 * arcs);
    count
}

// Orders the nodes of a source with `arcs` arcs, and answers how many they are. None: they are more than `most`; then
// no entry is left.
pub(crate) fn order_nodes<S: ArcSource>(
    nodes: &mut FasNodeContainer<'_>,
    neighbours: &mut [NeighbourPlace],
    classes: &mut [ClassPlace],
    order: &mut [NodeIndex],
    source: &S,
    arcs: u32,
    most: u32,
) -> Option<u32>
    requires arcs { (arcs ≡ length (S.ArcSource.arcs source.now)) × (arcs ≤ 16384) }
    requires room { (2 * arcs ≤ length neighbours.old) × (2 * arcs < length classes.old) }
    requires most { (most ≤ room_of (slots_of nodes.old)) × (most ≤ length order.old) }
    requires fresh { listing nodes.old.table ≡ [] }
    requires clean { (neighbours.old ≡ replicate (length neighbours.old) blank_neighbour) × (classes.old ≡ replicate (length classes.old) blank_class) }
    ensures ordered { MatchOption result ((most < length (touched (links S.Node.index (S.ArcSource.arcs source.now)))) × (listing nodes.new.table ≡ []) × (places nodes.new.table ≡ replicate (slots_of nodes.old) blank_slot) × (order.new ≡ order.old)) (λ n. (n ≡ length (met_of nodes.new)) × (n ≤ most) × Ranked (links S.Node.index (S.ArcSource.arcs source.now)) nodes.new order.old order.new) }
    ensures slots { slots_of nodes.new ≡ slots_of nodes.old }
    ensures clean { (neighbours.new ≡ neighbours.old) × (classes.new ≡ classes.old) }
{
    if enter_all(nodes, neighbours, source, most).is_none() {
        nodes.clear();
        blank_first(neighbours, 2 * arcs);
        return None;
    }
    Some(good_node_sequence(nodes, neighbours, classes, order, arcs))
}
