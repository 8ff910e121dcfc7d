ghost use Rattle.std.specs.Prelude.{◌≡◌, ℕ, ◌-◌, ◌≤◌, List};
ghost use Rattle.fas_layout.specs.Stages.{Any, Neither, Ordered};
ghost use Rattle.feedback_arc_set.specs.Containers.{columns, key_in, SameNames};
ghost use Rattle.feedback_arc_set.specs.Listed.{At, SameLenders, order_places, starts};
ghost use Rattle.feedback_arc_set.specs.Nodes.{neighbours_of};
ghost use Rattle.greedy_order.specs.Part2Greedy.{NoSink};
ghost use Rattle.keys.specs.declared.node_index.NodeIndex.{NodeIndex as Index};
ghost use Rattle.network.specs.Network.{Link};

use crate::buckets::Buckets;
use crate::container::FasNodeContainer;
use crate::halves::Halves;
use crate::places::NeighbourPlace;

// Not one function with `take_sources`: class, half and what holds before and after differ, so that each clause would be
// by cases. The four parameters stay apart: of a struct that holds structs of lent tables nothing is known once it is
// let go.
// All sinks, each to the front of the tail half.
fn take_sinks(
    nodes: &mut FasNodeContainer<'_>,
    buckets: &mut Buckets<'_>,
    neighbours: &[NeighbourPlace],
    halves: &mut Halves<'_>,
)
    ensures stage { (arcs : List Link) (goal : List Index) → At arcs (neighbours_of neighbours.now) (key_in nodes.old) goal Any nodes.old buckets.old halves.old → At arcs (neighbours_of neighbours.now) (key_in nodes.old) goal (NoSink arcs) nodes.new buckets.new halves.new }
    ensures names { SameNames nodes.new nodes.old }
    ensures lenders { SameLenders buckets.new halves.new buckets.old halves.old }
    ensures narrower { halves.new.back - halves.new.front ≤ halves.old.back - halves.old.front }
{
    while let Some(sink) = buckets.take_first(nodes, neighbours, 0, halves.room()) {
        halves.push_tail(nodes, sink);
    }
}

// All source nodes, each to the back of the head half.
fn take_sources(
    nodes: &mut FasNodeContainer<'_>,
    buckets: &mut Buckets<'_>,
    neighbours: &[NeighbourPlace],
    halves: &mut Halves<'_>,
)
    ensures stage { (arcs : List Link) (goal : List Index) → At arcs (neighbours_of neighbours.now) (key_in nodes.old) goal (NoSink arcs) nodes.old buckets.old halves.old → At arcs (neighbours_of neighbours.now) (key_in nodes.old) goal (Neither arcs) nodes.new buckets.new halves.new }
    ensures names { SameNames nodes.new nodes.old }
    ensures lenders { SameLenders buckets.new halves.new buckets.old halves.old }
    ensures narrower { halves.new.back - halves.new.front ≤ halves.old.back - halves.old.front }
{
    let class = buckets.source_class();
    while let Some(source) = buckets.take_first(nodes, neighbours, class, halves.room()) {
        halves.push_head(nodes, source);
    }
}

// Rounds, each of all sinks, all source nodes and one node of the best class, until one takes nothing of the last.
pub(crate) fn take_all(
    nodes: &mut FasNodeContainer<'_>,
    buckets: &mut Buckets<'_>,
    neighbours: &[NeighbourPlace],
    halves: &mut Halves<'_>,
)
    ensures ordered { (arcs : List Link) (goal : List Index) → At arcs (neighbours_of neighbours.now) (key_in nodes.old) goal Any nodes.old buckets.old halves.old → Ordered (key_in nodes.old) goal (order_places halves.new) (columns nodes.new) (starts buckets.new) }
    ensures names { SameNames nodes.new nodes.old }
    ensures lenders { SameLenders buckets.new halves.new buckets.old halves.old }
{
    // labelled rounds, as in petgraph
    'rounds: loop {
        take_sinks(nodes, buckets, neighbours, halves);
        take_sources(nodes, buckets, neighbours, halves);
        let class = buckets.best_class();
        buckets.top = class;
        match buckets.take_first(nodes, neighbours, class, halves.room()) {
            Some(best) => halves.push_head(nodes, best),
            None => break 'rounds,
        }
    }
}
