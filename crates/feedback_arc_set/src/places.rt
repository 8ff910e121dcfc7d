ghost use Rattle.std.specs.Prelude.{◌≡◌, slice_set};
ghost use Rattle.feedback_arc_set.specs.Nodes.{blank_neighbour, blank_class};

use keys::FasNodeIndex;
use linked_list::list::LinkedList;

/// A neighbour of a node, and the place of its next neighbour.
#[derive(Clone, Copy)]
pub struct NeighbourPlace {
    pub(crate) node: FasNodeIndex,
    pub(crate) next: Option<u32>,
}

impl NeighbourPlace {
    /// A place that no list uses.
    pub fn blank() -> NeighbourPlace
        ensures { result ≡ blank_neighbour }
    {
        NeighbourPlace {
            node: FasNodeIndex::new(0),
            next: None,
        }
    }
}

/// The nodes of one class.
#[derive(Clone, Copy)]
pub struct ClassPlace {
    pub(crate) list: LinkedList,
}

impl ClassPlace {
    /// A class with no nodes.
    pub fn blank() -> ClassPlace
        ensures { result ≡ blank_class }
    {
        ClassPlace {
            list: LinkedList::new(),
        }
    }
}

// By index: after a slice's `get_mut` a proof knows only the length.
// Writes a place; past the last nothing is written.
pub(crate) fn put<T: Copy>(places: &mut [T], i: usize, place: T)
    ensures { places.new ≡ slice_set places.old i place }
{
    if i < places.len() {
        places[i] = place;
    }
}
