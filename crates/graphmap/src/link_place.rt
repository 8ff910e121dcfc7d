ghost use Rattle.std.specs.Prelude.{◌≡◌, None};
ghost use Rattle.graphmap.specs.Places.{blank_place};

use linked_list::position::LinkedListPosition;
use linked_list::slots::Linked;
use map_layout::IndexedKey;

/// A place for one link. Its content is the map's own.
#[derive(Clone, Copy)]
pub struct LinkPlace<N> {
    pub(crate) neighbor: Option<IndexedKey<N>>,
    pub(crate) position: Option<LinkedListPosition>,
}

impl<N> LinkPlace<N> {
    /// A place that holds nothing.
    pub fn blank() -> LinkPlace<N>
        ensures { result ≡ blank_place }
    {
        LinkPlace {
            neighbor: None,
            position: None,
        }
    }
}

impl<N: Copy> Linked for LinkPlace<N> {
    ghost place = { λ p. p.position };

    ghost blank = { λ p. record { neighbor = p.neighbor; position = None } };

    fn position(&self) -> Option<LinkedListPosition> {
        self.position
    }

    fn set_position(&mut self, position: Option<LinkedListPosition>) {
        self.position = position;
    }
}
