ghost use Rattle.std.specs.Prelude.{◌≡◌, ◌+◌, ◌-◌, ◌<◌, slice_set};
ghost use Rattle.fas_layout.specs.Columns.{PlaceWritten};
ghost use Rattle.feedback_arc_set.specs.Containers.{columns, key_in, SameNames};
ghost use Rattle.feedback_arc_set.specs.Listed.{order_places};

use crate::container::FasNodeContainer;
use crate::places::put;
use keys::{FasNodeIndex, NodeIndex};

// The order as it is made: the head half lies before `front` and grows at its back, the tail half lies from `back` on
// and grows at its front.
#[derive(Drop)]
pub(crate) struct Halves<'o> {
    pub(crate) places: &'o mut [NodeIndex],
    pub(crate) front: u32,
    pub(crate) back: u32,
}

// Puts the node of an entry at the place `p`, and the place into the entry.
fn put_node(places: &mut [NodeIndex], nodes: &mut FasNodeContainer<'_>, p: u32, ix: FasNodeIndex)
    ensures order { places.new ≡ slice_set places.old p (key_in nodes.old ix.value) }
    ensures written { PlaceWritten (columns nodes.new) (columns nodes.old) ix.value p }
    ensures names { SameNames nodes.new nodes.old }
{
    put(places, p as usize, nodes.key(ix));
    nodes.set_place(ix, p);
}

impl<'o> Halves<'o> {
    // How many places are left between the halves.
    pub(crate) fn room(&self) -> u32
        ensures { result ≡ self.now.back - self.now.front }
    {
        self.back.saturating_sub(self.front)
    }

    // Not one function with `push_tail`: three of its six clauses would be by cases.
    // Puts the node of an entry to the back of the head half.
    pub(crate) fn push_head(&mut self, nodes: &mut FasNodeContainer<'_>, ix: FasNodeIndex)
        requires { self.old.front < self.old.back }
        ensures order { order_places self.new ≡ slice_set (order_places self.old) self.old.front (key_in nodes.old ix.value) }
        ensures written { PlaceWritten (columns nodes.new) (columns nodes.old) ix.value self.old.front }
        ensures names { SameNames nodes.new nodes.old }
        ensures lender { self.new.places.ghost_name ≡ self.old.places.ghost_name }
        ensures front { self.new.front ≡ self.old.front + 1 }
        ensures back { self.new.back ≡ self.old.back }
    {
        let p = self.front;
        put_node(self.places, nodes, p, ix);
        self.front = p + 1;
    }

    // Puts the node of an entry to the front of the tail half.
    pub(crate) fn push_tail(&mut self, nodes: &mut FasNodeContainer<'_>, ix: FasNodeIndex)
        requires { self.old.front < self.old.back }
        ensures order { order_places self.new ≡ slice_set (order_places self.old) (self.old.back - 1) (key_in nodes.old ix.value) }
        ensures written { PlaceWritten (columns nodes.new) (columns nodes.old) ix.value (self.old.back - 1) }
        ensures names { SameNames nodes.new nodes.old }
        ensures lender { self.new.places.ghost_name ≡ self.old.places.ghost_name }
        ensures front { self.new.front ≡ self.old.front }
        ensures back { self.new.back ≡ self.old.back - 1 }
    {
        let p = self.back - 1;
        put_node(self.places, nodes, p, ix);
        self.back = p;
    }
}
