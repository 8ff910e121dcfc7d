ghost use Rattle.std.specs.Prelude.{◌≡◌, ◌+◌, ◌^◌, ◌<◌, MatchResult, Some, None};
ghost use Rattle.graphmap.specs.States.{state};
ghost use Rattle.map_layout.specs.Edits.{both_linked_at, laid, lacks_nodes, lacks_arc, refusal, ArcLaid, ArcPut};
ghost use Rattle.map_layout.specs.Layout.{model};
ghost use Rattle.map_layout.specs.Steps.{entered};
ghost use Rattle.map_model.specs.Model.{new_keys, node_added_at};

use super::{Tables, indices};
use crate::places::partner;
use fault::Fault;
use keys::{Ends, NodeIndex};
use map_layout::{ArcRecord, IndexedKey, NodeRecord};

impl<'a, N: Copy, E: Copy> Tables<'a, N, E> {
    /// Puts a node last, unless it is there.
    pub(crate) fn add_node(&mut self, node: IndexedKey<N>) -> Result<N, Fault>
        ensures answer { result ≡ (node_added_at (model (state self.old)) node.key node.index.value).0 }
        ensures state { state self.new ≡ entered node.key node.index (state self.old) }
    {
        if self.nodes.contains(&node.index) {
            return Ok(node.key);
        }
        self.nodes
            .insert(node.index, NodeRecord::new(node.key))
            .map(|_| node.key)
            .map_err(|_| Fault::NodesFull)
    }

    // How many of the two ends are new: a loop has one end.
    fn new_keys(&self, ends: Ends<NodeIndex>) -> u32
        ensures { result ≡ new_keys ends.source.value ends.target.value (model (state self.now)).nodes }
    {
        let sources = u32::from(!self.nodes.contains(&ends.source));
        if ends.source == ends.target {
            return sources;
        }
        sources + u32::from(!self.nodes.contains(&ends.target))
    }

    // Gives an arc its link at the source and, unless it is a loop, the one at the target.
    fn link_both(&mut self, ends: Ends<IndexedKey<N>>, place: u32)
        ensures state { state self.new ≡ both_linked_at ends.source.key ends.source.index ends.target.key ends.target.index place (state self.old) }
    {
        self.link(ends.source, place, ends.target);
        if ends.source.index == ends.target.index {
            return;
        }
        self.link(ends.target, partner(place), ends.source);
    }

    // Puts a new arc last, with its links.
    fn lay(&mut self, ends: Ends<IndexedKey<N>>, weight: E)
        requires { self.old.fresh + 2 < 2 ^ 32 }
        ensures state { state self.new ≡ laid ends.source.key ends.source.index ends.target.key ends.target.index weight (state self.old) }
    {
        let Ends { source, target } = ends;
        let place = self.take_place();
        self.link_both(ends, place);
        let arc = ArcRecord {
            source: source.key,
            target: target.key,
            weight,
            place,
        };
        let _ = self.arcs.insert(indices(ends), arc);
    }

    // Whether the new ones of the two ends outnumber the free node places.
    fn lacks_nodes(&self, ends: Ends<NodeIndex>) -> bool
        ensures { result ≡ lacks_nodes ends.source ends.target (state self.now) }
    {
        self.nodes.free() < self.new_keys(ends)
    }

    // Whether no arc place is free.
    fn lacks_arc(&self) -> bool
        ensures { result ≡ lacks_arc (state self.now) }
    {
        self.arcs.free() == 0
    }

    // That a new arc finds its places, or why it finds none.
    fn check_room(&self, ends: Ends<NodeIndex>) -> Result<(), Fault>
        ensures { MatchResult result (λ _. refusal ends.source ends.target (state self.now) ≡ None) (λ fault. refusal ends.source ends.target (state self.now) ≡ Some fault) }
    {
        if self.lacks_nodes(ends) {
            return Err(Fault::NodesFull);
        }
        if self.lacks_arc() {
            return Err(Fault::ArcsFull);
        }
        Ok(())
    }

    // Adds an arc that is not there, unless its ends or the arc itself find no place.
    fn add_new(&mut self, ends: Ends<IndexedKey<N>>, weight: E) -> Result<Option<E>, Fault>
        requires { self.old.fresh + 2 < 2 ^ 32 }
        ensures done { ArcLaid ends.source.key ends.source.index ends.target.key ends.target.index weight (state self.old) result (state self.new) }
    {
        self.check_room(indices(ends))?;
        self.lay(ends, weight);
        Ok(None)
    }

    /// Adds an arc, or replaces its weight where it is there.
    pub(crate) fn add_edge(
        &mut self,
        ends: Ends<IndexedKey<N>>,
        weight: E,
    ) -> Result<Option<E>, Fault>
        requires { self.old.fresh + 2 < 2 ^ 32 }
        ensures done { ArcPut ends.source.key ends.source.index ends.target.key ends.target.index weight (state self.old) result (state self.new) }
    {
        let arc = indices(ends);
        let Some(old) = self.arcs.get(&arc) else {
            return self.add_new(ends, weight);
        };
        let _ = self.arcs.insert(arc, ArcRecord { weight, ..old });
        Ok(Some(old.weight))
    }
}
