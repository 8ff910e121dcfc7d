ghost use Rattle.std.specs.Prelude.{◌≡◌, length};
ghost use Rattle.feedback_arc_set.specs.Cursors.{both_placed, first_held, first_unplaced, link, opened, position_after, shown, shows};
ghost use Rattle.feedback_arc_set.specs.Verdicts.{order_of};

use crate::ordering::Ordering;
use fault::Fault;
use keys::NodeKey;
use network::{Arc, ArcSource, Arcs};

/// An arc that an order holds, and its position in the source.
#[derive(Clone, Copy)]
pub struct HeldArc<N, E> {
    pub position: u32,
    pub arc: Arc<N, E>,
}

/// A cursor of an order, which shows the held arcs of a source in its sequence.
#[derive(Clone, Copy)]
pub struct HeldArcs<'o, 'w> {
    ordering: &'o Ordering<'w>,
    position: u32,
}

impl<'w> Ordering<'w> {
    // Whether both ends of an arc have a place.
    fn places_both<N: NodeKey, E: Copy>(&self, arc: &Arc<N, E>) -> bool
        ensures { result ≡ both_placed (order_of self.now) (link N.NodeKey.index arc.now) }
    {
        self.place(arc.source.node_index()).is_some()
            && self.place(arc.target.node_index()).is_some()
    }

    // Whether both ends of an arc have a place, and the source's is not before the target's.
    fn holds<N: NodeKey, E: Copy>(&self, arc: &Arc<N, E>) -> bool
        ensures { result ≡ shows N.NodeKey.index (order_of self.now) arc.now }
    {
        self.place(arc.source.node_index())
            .zip(self.place(arc.target.node_index()))
            .is_some_and(|(from, to)| from >= to)
    }

    /// A cursor of the held arcs of a source, before its first arc. `EndUnplaced` names the first arc with an end that
    /// has no place.
    pub fn held<S: ArcSource>(&self, source: &S) -> Result<HeldArcs<'_, 'w>, Fault>
        ensures { result ≡ opened self.entry (first_unplaced S.Node.index (order_of self.now) (S.ArcSource.arcs source.now)) }
    {
        match Arcs::new(source).position(|arc| !self.places_both(&arc)) {
            Some(position) => Err(Fault::EndUnplaced(position as u32)),
            None => Ok(HeldArcs {
                ordering: self,
                position: 0,
            }),
        }
    }
}

impl<'o, 'w> HeldArcs<'o, 'w> {
    // It is lent the source at each step, and goes on from its own position: so it is no iterator.
    /// The next arc that is held, or none; an arc with an end that has no place is skipped.
    pub fn next<S: ArcSource>(&mut self, source: &S) -> Option<HeldArc<S::Node, S::Weight>>
        ensures shows { result ≡ shown (first_held S.Node.NodeKey.index (order_of self.old.ordering.now) self.old.position (S.ArcSource.arcs source.now)) }
        ensures stands { self.new.position ≡ position_after (first_held S.Node.NodeKey.index (order_of self.old.ordering.now) self.old.position (S.ArcSource.arcs source.now)) self.old.position (length (S.ArcSource.arcs source.now)) }
        ensures same { self.new.ordering ≡ self.old.ordering }
    {
        for position in self.position..source.arc_count() {
            self.position = position + 1;
            let arc = source.arc_at(position)?;
            if self.ordering.holds(&arc) {
                return Some(HeldArc { position, arc });
            }
        }
        None
    }
}
