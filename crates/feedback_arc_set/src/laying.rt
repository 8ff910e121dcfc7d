ghost use Rattle.std.specs.Prelude.{◌≡◌, ℕ, ◌+◌, ◌*◌, ◌^◌, ◌<◌, ◌≤◌, false, List, [], ◌∷◌, length, Some, None, slice_index, slice_index_or};
ghost use Rattle.fas_layout.specs.Classes.{Filed};
ghost use Rattle.fas_layout.specs.Columns.{SameButPositions, class_at};
ghost use Rattle.fas_layout.specs.Following.{degrees, firsts};
ghost use Rattle.fas_layout.specs.Laying.{EndsBelow, Laid, Led, LeadsTo, down, link_at, links_from};
ghost use Rattle.fas_layout.specs.Stages.{Stands};
ghost use Rattle.feedback_arc_set.specs.Containers.{AllBlank, columns, nodes_of, SameNames};
ghost use Rattle.feedback_arc_set.specs.Listed.{SameSizes, starts};
ghost use Rattle.feedback_arc_set.specs.Nodes.{neighbours_of, BlankFrom, SameButAt};
ghost use Rattle.linked_list.specs.Places.{is_in, at};
ghost use Rattle.network.specs.Network.{Link};

use crate::buckets::Buckets;
use crate::container::FasNodeContainer;
use crate::neighbours::{node_at, set_next};
use crate::places::NeighbourPlace;
use keys::FasNodeIndex;
use network::CompactDirection;

// The place `p` comes to the front of the entry's list of neighbours.
fn lead(
    nodes: &mut FasNodeContainer<'_>,
    neighbours: &mut [NeighbourPlace],
    p: u32,
    ix: FasNodeIndex,
    direction: CompactDirection,
)
    requires { slice_index (degrees direction (columns nodes.old)) ix.value + 1 < 2 ^ 32 }
    ensures leads { LeadsTo (neighbours_of neighbours.old) (neighbours_of neighbours.new) p (slice_index_or (firsts direction (columns nodes.old)) ix.value None) }
    ensures others { SameButAt neighbours.old neighbours.new p }
    ensures led { Led direction (columns nodes.old) (columns nodes.new) ix.value p }
    ensures names { SameNames nodes.new nodes.old }
{
    let node = nodes.node(ix);
    set_next(neighbours, p, node.first(direction));
    nodes.set_node(ix, node.led(direction, p));
}

// The arc at position `i` comes to the front of its lists: the neighbour places `2i` and `2i + 1` name its ends.
fn lay_arc(nodes: &mut FasNodeContainer<'_>, neighbours: &mut [NeighbourPlace], i: u32)
    requires ends { ((link_at (neighbours_of neighbours.old).nodes i).0 < length (nodes_of nodes.old)) × ((link_at (neighbours_of neighbours.old).nodes i).1 < length (nodes_of nodes.old)) }
    requires room { (2 * i + 1 < length neighbours.old) × (2 * i + 1 < 2 ^ 32) }
    requires few { (slice_index (columns nodes.old).out_degrees (link_at (neighbours_of neighbours.old).nodes i).0 + 1 < 2 ^ 32) × (slice_index (columns nodes.old).in_degrees (link_at (neighbours_of neighbours.old).nodes i).1 + 1 < 2 ^ 32) }
    ensures laid { (arcs : List Link) → Laid (neighbours_of neighbours.old) (columns nodes.old) (length (nodes_of nodes.old)) (2 * i + 2) arcs → Laid (neighbours_of neighbours.new) (columns nodes.new) (length (nodes_of nodes.old)) (2 * i) (link_at (neighbours_of neighbours.old).nodes i ∷ arcs) }
    ensures ends { (neighbours_of neighbours.new).nodes ≡ (neighbours_of neighbours.old).nodes }
    ensures blank { (n : ℕ) → 2 * i + 2 ≤ n → BlankFrom neighbours.old n → BlankFrom neighbours.new n }
    ensures positions { (columns nodes.new).positions ≡ (columns nodes.old).positions }
    ensures names { SameNames nodes.new nodes.old }
{
    let target = node_at(neighbours, 2 * i);
    let source = node_at(neighbours, 2 * i + 1);
    lead(nodes, neighbours, 2 * i, source, CompactDirection::Outgoing);
    lead(
        nodes,
        neighbours,
        2 * i + 1,
        target,
        CompactDirection::Incoming,
    );
}

// All arcs, the last first, so that each list is in the sequence of the arcs.
pub(crate) fn lay_all(
    nodes: &mut FasNodeContainer<'_>,
    neighbours: &mut [NeighbourPlace],
    arcs: u32,
)
    requires few { arcs ≤ 16384 }
    requires room { 2 * arcs ≤ length neighbours.old }
    requires ends { EndsBelow (neighbours_of neighbours.old).nodes arcs (length (nodes_of nodes.old)) }
    requires laid { Laid (neighbours_of neighbours.old) (columns nodes.old) (length (nodes_of nodes.old)) (2 * arcs) [] }
    ensures laid { Laid (neighbours_of neighbours.new) (columns nodes.new) (length (nodes_of nodes.old)) 0 (links_from (neighbours_of neighbours.old).nodes 0 arcs) }
    ensures ends { (neighbours_of neighbours.new).nodes ≡ (neighbours_of neighbours.old).nodes }
    ensures blank { BlankFrom neighbours.old (2 * arcs) → BlankFrom neighbours.new (2 * arcs) }
    ensures positions { (columns nodes.new).positions ≡ (columns nodes.old).positions }
    ensures names { SameNames nodes.new nodes.old }
{
    // an arc's own number
    for i in (0..arcs).rev() {
        lay_arc(nodes, neighbours, i);
    }
}

// Each entry, one after the other, goes to the front of its class.
pub(crate) fn file_all(nodes: &mut FasNodeContainer<'_>, buckets: &mut Buckets<'_>)
    ensures filed { ((z : ℕ) → is_in (at (columns nodes.old).positions z) ≡ false) → ((k : ℕ) → slice_index_or (starts buckets.old) k None ≡ None) → ((z : ℕ) → z < length (nodes_of nodes.old) → class_at buckets.old.arcs (columns nodes.old) z < length (starts buckets.old)) → Filed (columns nodes.new).positions (class_at buckets.old.arcs (columns nodes.old)) (starts buckets.new) (down (length (nodes_of nodes.old))) }
    ensures kept { SameButPositions (columns nodes.new) (columns nodes.old) }
    ensures names { SameNames nodes.new nodes.old }
    ensures sizes { SameSizes buckets.new buckets.old }
{
    // an entry's own number
    for i in 0..nodes.len() {
        let ix = FasNodeIndex::new(i);
        let class = buckets.suitable_bucket(nodes, ix);
        buckets.push_front(nodes, class, ix);
    }
}

// The arcs whose ends are entered are laid out, and every entry is filed in its class.
pub(crate) fn lay_out(
    nodes: &mut FasNodeContainer<'_>,
    neighbours: &mut [NeighbourPlace],
    buckets: &mut Buckets<'_>,
)
    requires few { buckets.old.arcs ≤ 16384 }
    requires room { 2 * buckets.old.arcs ≤ length neighbours.old }
    requires wide { 2 * buckets.old.arcs < length (starts buckets.old) }
    requires ends { EndsBelow (neighbours_of neighbours.old).nodes buckets.old.arcs (length (nodes_of nodes.old)) }
    requires blank { AllBlank nodes.old }
    requires empty { (k : ℕ) → slice_index_or (starts buckets.old) k None ≡ None }
    ensures stands { Stands buckets.old.arcs (links_from (neighbours_of neighbours.old).nodes 0 buckets.old.arcs) (neighbours_of neighbours.new) (columns nodes.new) (starts buckets.new) (down (length (nodes_of nodes.old))) }
    ensures blank { BlankFrom neighbours.old (2 * buckets.old.arcs) → BlankFrom neighbours.new (2 * buckets.old.arcs) }
    ensures names { SameNames nodes.new nodes.old }
    ensures sizes { SameSizes buckets.new buckets.old }
{
    lay_all(nodes, neighbours, buckets.arcs);
    file_all(nodes, buckets);
}
