// The edits of a graph map and their answers, and what a map shows after any list of them.

#![tactic(auto)]

ghost use Rattle.std.specs.Prelude.{◌≡◌, T, length};
ghost use Rattle.map_model.specs.Answers.{number_of_answer, granted};
ghost use Rattle.map_model.specs.Statements.{AllEdgesShowWhatWasGrantedLast};
ghost use Rattle.map_model.specs.Laws.{QuestionsAgreeAfterEveryRun, EveryRunKeepsTheMap};
ghost use Rattle.map_model.specs.Known.{known_answers, KnownAnswersStand};

use fault::Fault;
pub use network::CompactDirection;

/// An edit of a map whose nodes have keys of type `N` and whose edges have weights of type `E`.
#[derive(Clone, Copy)]
pub enum Edit<N, E> {
    /// Add a node.
    AddNode(N),
    /// Add the edge from the first node to the second, or replace its weight.
    AddEdge(N, N, E),
    /// Remove a node and its edges.
    RemoveNode(N),
    /// Remove the edge from the first node to the second.
    RemoveEdge(N, N),
}

/// What an edit answered.
#[derive(Clone, Copy)]
pub enum Answer<N, E> {
    /// The key given, or why there is no room for it.
    NodeAdded(Result<N, Fault>),
    /// The weight that was replaced, none where the edge is new, or why there is no room for it.
    EdgeAdded(Result<Option<E>, Fault>),
    /// Whether the node was there.
    NodeRemoved(bool),
    /// The weight of the edge, if it was there.
    EdgeRemoved(Option<E>),
}

impl<N, E> Answer<N, E> {
    /// The number of the fault, or `None` where the edit was granted.
    pub fn number(&self) -> Option<u32>
        ensures { result ≡ number_of_answer self.now }
    {
        match self {
            Answer::NodeAdded(Err(fault)) => Some(fault.number()),
            Answer::EdgeAdded(Err(fault)) => Some(fault.number()),
            _ => None,
        }
    }

    /// Whether the edit was granted; one that found nothing to remove was.
    pub fn is_granted(&self) -> bool
        ensures { result ≡ granted self.now }
    {
        self.number().is_none()
    }
}

/// After any list of edits of a map just built, all edges show an arc, once, exactly if it was added and neither it nor an end
/// of it was removed later, in the edits that were granted; it has the weight that was granted last. With it go two laws of
/// such a map: a node's edges in a direction are the arcs that begin, or end, there, and its neighbors their other ends; and
/// nodes and arcs stand once each, have places, and are stored with the index of their keys.
pub fn all_edges_show_what_was_granted_last<N, E>() -> bool
    ensures answer { T result }
    ensures promise { AllEdgesShowWhatWasGrantedLast N E }
    ensures questions { QuestionsAgreeAfterEveryRun N E }
    ensures kept { EveryRunKeepsTheMap N E }
{
    true
}

/// How many lists of edits have known answers, which the definitions give.
pub fn known_answers_stand() -> u32
    ensures answer { result ≡ length known_answers }
    ensures stand { KnownAnswersStand }
{
    4
}
