ghost use Rattle.std.specs.Prelude.{◌≡◌, ℕ, ◌+◌, ◌*◌, ◌^◌, ◌<◌, ◌≤◌, List, [], length, take, None, OnSome, MatchOption, slice_index_or};
ghost use Rattle.fas_layout.specs.Laying.{Entered};
ghost use Rattle.feedback_arc_set.specs.Containers.{AllBlank, OwnNames, met_of, slots_of};
ghost use Rattle.feedback_arc_set.specs.Steps.{EnteredAll};
ghost use Rattle.feedback_arc_set.specs.Nodes.{neighbours_of, BlankFrom};
ghost use Rattle.keyed_table.specs.Chains.{room_of};
ghost use Rattle.network.specs.Network.{Link, meet_all, touched};
ghost use Rattle.network.specs.Sources.{links};

use crate::container::FasNodeContainer;
use crate::neighbours::set_neighbour;
use crate::places::NeighbourPlace;
use keys::{NodeIndex, NodeKey};
use network::{ArcSource, Arcs};

// Enters the ends of the arc at position `i`, the source first, and names them in the neighbour places `2i` and
// `2i + 1`. None: a node would be one more than `most`.
fn enter_arc(
    nodes: &mut FasNodeContainer<'_>,
    neighbours: &mut [NeighbourPlace],
    i: u32,
    source: NodeIndex,
    target: NodeIndex,
    most: u32,
) -> Option<()>
    requires most { most ≤ room_of (slots_of nodes.old) }
    requires room { (2 * i + 1 < length neighbours.old) × (2 * i + 1 < 2 ^ 32) }
    ensures entered { OnSome result ((links : List Link) → i < length links → slice_index_or links i (0, 0) ≡ (source.value, target.value) → Entered links i (met_of nodes.old) (neighbours_of neighbours.old).nodes → Entered links (i + 1) (met_of nodes.new) (neighbours_of neighbours.new).nodes) }
    ensures few { OnSome result (length (met_of nodes.old) ≤ most → length (met_of nodes.new) ≤ most) }
    ensures kept { OnSome result ((AllBlank nodes.old → AllBlank nodes.new) × (OwnNames nodes.old → OwnNames nodes.new)) }
    ensures refused { result ≡ None → (links : List Link) → i < length links → slice_index_or links i (0, 0) ≡ (source.value, target.value) → met_of nodes.old ≡ meet_all (take i links) [] → most < length (touched links) }
    ensures slots { slots_of nodes.new ≡ slots_of nodes.old }
    ensures blank { (n : ℕ) → 2 * i + 2 ≤ n → BlankFrom neighbours.old n → BlankFrom neighbours.new n }
{
    let source = nodes.enter(source, most)?;
    let target = nodes.enter(target, most)?;
    set_neighbour(neighbours, 2 * i, target);
    set_neighbour(neighbours, 2 * i + 1, source);
    Some(())
}

// Enters the ends of all arcs of a source, in its sequence. None: the touched nodes are more than `most`.
pub(crate) fn enter_all<S: ArcSource>(
    nodes: &mut FasNodeContainer<'_>,
    neighbours: &mut [NeighbourPlace],
    source: &S,
    most: u32,
) -> Option<()>
    requires few { length (S.ArcSource.arcs source.now) ≤ 16384 }
    requires most { most ≤ room_of (slots_of nodes.old) }
    requires room { 2 * length (S.ArcSource.arcs source.now) ≤ length neighbours.old }
    requires fresh { (met_of nodes.old ≡ []) × ((AllBlank nodes.old) × (OwnNames nodes.old)) }
    ensures entered { MatchOption result (most < length (touched (links S.Node.index (S.ArcSource.arcs source.now)))) (λ u. EnteredAll (links S.Node.index (S.ArcSource.arcs source.now)) nodes.new neighbours.new most) }
    ensures slots { slots_of nodes.new ≡ slots_of nodes.old }
    ensures blank { BlankFrom neighbours.old (2 * length (S.ArcSource.arcs source.now)) → BlankFrom neighbours.new (2 * length (S.ArcSource.arcs source.now)) }
{
    for (i, arc) in Arcs::new(source).enumerate() {
        enter_arc(
            nodes,
            neighbours,
            i as u32,
            arc.source.node_index(),
            arc.target.node_index(),
            most,
        )?;
    }
    Some(())
}
