ghost use Rattle.std.specs.Prelude.{◌≡◌};
ghost use Rattle.graphmap.specs.Maps.{map_model};
ghost use Rattle.map_model.specs.Model.{edited, run, answers};
ghost use Rattle.map_model.specs.Statements.{AllEdgesShowWhatWasGrantedLast};
ghost use Rattle.replay.specs.Steps.{edits_of, recorded};

use crate::step::Step;
use graphmap::GraphMap;
use keys::{Key, NodeKey};
use map_model::{Answer, Edit};

/// Makes one edit on a map, and answers what the call answered.
pub fn apply<N: NodeKey, E: Copy>(map: &mut GraphMap<'_, N, E>, edit: Edit<N, E>) -> Answer<N, E>
    ensures answer { result ≡ (edited N.NodeKey.index (map_model map.old) edit).0 }
    ensures shown { map_model map.new ≡ (edited N.NodeKey.index (map_model map.old) edit).1 }
{
    match edit {
        Edit::AddNode(n) => Answer::NodeAdded(map.add_node(n)),
        Edit::AddEdge(a, b, weight) => Answer::EdgeAdded(map.add_edge(a, b, weight)),
        Edit::RemoveNode(n) => Answer::NodeRemoved(map.remove_node(n)),
        Edit::RemoveEdge(a, b) => Answer::EdgeRemoved(map.remove_edge(a, b)),
    }
}

/// Makes the edits of a list one after another, each on the map that the one before left, and puts each answer beside its
/// edit. After any list of edits of a map just built, all edges show exactly what was granted last.
pub fn replay_edits<N: NodeKey, E: Copy>(map: &mut GraphMap<'_, N, E>, steps: &mut [Step<N, E>])
    ensures steps { steps.new ≡ recorded (edits_of steps.old) (answers N.NodeKey.index (map_model map.old) (edits_of steps.old)) }
    ensures shown { map_model map.new ≡ run N.NodeKey.index (map_model map.old) (edits_of steps.old) }
    ensures promise { AllEdgesShowWhatWasGrantedLast N E }
{
    for step in steps.iter_mut() {
        step.answer = Some(apply(map, step.edit));
    }
}
