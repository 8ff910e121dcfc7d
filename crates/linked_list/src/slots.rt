ghost use Rattle.std.specs.Prelude.{◌≡◌, List, map, None, slice_set};
ghost use Rattle.linked_list.specs.Places.{Position, at};

use crate::container::Container;
use crate::position::LinkedListPosition;

// An entry that carries its own position.
pub trait Linked: Copy {
    // where the entry stands
    ghost place: { Self → Position };

    // the entry but for its position
    ghost blank: { Self → Self };

    fn position(&self) -> Option<LinkedListPosition>
        ensures { result ≡ place self.now };

    fn set_position(&mut self, position: Option<LinkedListPosition>)
        ensures placed { place self.new ≡ position }
        ensures kept { blank self.new ≡ blank self.old };
}

// An entry that is its position and no more.
#[derive(Clone, Copy)]
pub struct Link {
    pub position: Option<LinkedListPosition>,
}

impl Linked for Link {
    ghost place = { λ x. x.position };

    ghost blank = { λ x. record { position = None } };

    fn position(&self) -> Option<LinkedListPosition> {
        self.position
    }

    fn set_position(&mut self, position: Option<LinkedListPosition>) {
        *self = Link { position };
    }
}

// Entries in a lent slice.
#[derive(Drop)]
pub struct Slots<'a, T> {
    pub slots: &'a mut [T],
}

impl<'a, T: Linked> Container for Slots<'a, T> {
    ghost positions = { λ s. map T.Linked.place s.slots.now };

    ghost Rest = { List T };

    ghost stripped = { λ s. map T.Linked.blank s.slots.now };

    fn holds(&self, i: u32) -> bool {
        (i as usize) < self.slots.len()
    }

    fn position(&self, i: u32) -> Option<LinkedListPosition> {
        self.slots.get(i as usize)?.position()
    }

    fn set_position(&mut self, i: u32, position: Option<LinkedListPosition>) {
        // by index: after a slice's `get_mut` a proof knows only the length
        if self.holds(i) {
            self.slots[i as usize].set_position(position);
        }
    }
}
