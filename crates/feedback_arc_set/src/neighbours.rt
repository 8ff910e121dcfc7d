ghost use Rattle.std.specs.Prelude.{◌≡◌, length, replicate, None, slice_index, slice_index_or, slice_set};
ghost use Rattle.fas_layout.specs.Following.{later_of};
ghost use Rattle.fas_layout.specs.Laying.{LeadsTo};
ghost use Rattle.feedback_arc_set.specs.Nodes.{blank_neighbour, neighbours_of, neighbour_place, BlankFrom, SameButAt};

use crate::places::{NeighbourPlace, put};
use keys::FasNodeIndex;

// The neighbour at a place.
pub(crate) fn node_at(places: &[NeighbourPlace], p: u32) -> FasNodeIndex
    ensures { result.value ≡ slice_index (neighbours_of places.now).nodes p }
{
    places
        .get(p as usize)
        .map_or(FasNodeIndex::new(0), |place| place.node)
}

fn later(p: u32, next: Option<u32>) -> Option<u32>
    ensures { result ≡ later_of p next }
{
    next.filter(|next| p < *next)
}

// The place after `p` in its list; places rise along a list.
pub(crate) fn next_at(places: &[NeighbourPlace], p: u32) -> Option<u32>
    ensures { result ≡ later_of p (slice_index_or (neighbours_of places.now).nexts p None) }
{
    later(p, places.get(p as usize)?.next)
}

// The place `p` leads on to `next`.
pub(crate) fn set_next(places: &mut [NeighbourPlace], p: u32, next: Option<u32>)
    ensures leads { LeadsTo (neighbours_of places.old) (neighbours_of places.new) p next }
    ensures others { SameButAt places.old places.new p }
{
    let i = p as usize;
    if i < places.len() {
        places[i].next = next;
    }
}

// The place `p` names the neighbour `node`, and leads nowhere.
pub(crate) fn set_neighbour(places: &mut [NeighbourPlace], p: u32, node: FasNodeIndex)
    ensures { places.new ≡ slice_set places.old p (neighbour_place node) }
{
    put(places, p as usize, NeighbourPlace { node, next: None });
}

// Blanks the first `count` places.
pub(crate) fn blank_first(places: &mut [NeighbourPlace], count: u32)
    ensures { BlankFrom places.old count → places.new ≡ replicate (length places.old) blank_neighbour }
{
    let count = places.len().min(count as usize);
    places[..count].fill(NeighbourPlace::blank());
}
