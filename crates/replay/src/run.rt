ghost use Rattle.std.specs.Prelude.{◌≡◌, true, false, length, MatchResult};
ghost use Rattle.fault.specs.declared.Fault.TheVariants.{TablesUnfit};
ghost use Rattle.graphmap.specs.Capacity.{places_fit};
ghost use Rattle.graphmap.specs.Maps.{map_model};
ghost use Rattle.replay.specs.Runs.{AllPromises, Ran};

use crate::edits::replay_edits;
use crate::step::Step;
use fault::Fault;
use feedback_arc_set::Ordering;
use graphmap::{GraphMap, Places};
use keys::{Key, NodeKey};

/// Builds a map in these places, makes the edits of the steps one after another, puts each answer beside its edit, and
/// orders what all edges then show. The answer is the ordering's; the held arcs can then be read from the ordering.
///
/// Places that a map cannot have get fault 1, and nothing has changed. All promises hold of every run.
pub fn replay<'a, N: NodeKey, E: Copy>(
    map: &mut GraphMap<'a, N, E>,
    places: &mut Places<'a, N, E>,
    steps: &mut [Step<N, E>],
    ordering: &mut Ordering<'_>,
) -> Result<Result<u32, Fault>, Fault>
    ensures run { MatchResult result (λ answer. (places_fit places.old ≡ true) × Ran N.NodeKey.index (length places.old.nodes.now) (length places.old.arcs.now) steps.old steps.new (map_model map.new) ordering.old ordering.new answer) (λ fault. (places_fit places.old ≡ false) × (fault ≡ TablesUnfit) × (map.new ≡ map.old) × (places.new ≡ places.old) × (steps.new ≡ steps.old) × (ordering.new ≡ ordering.old)) }
    ensures promises { AllPromises N E }
{
    map.with_capacity(places)?;
    replay_edits(map, steps);
    Ok(ordering.greedy_feedback_arc_set(&map.open()))
}
