ghost use Rattle.std.specs.Prelude.{◌≡◌, List, length, nat_lt, slice_set};
ghost use Rattle.linked_list.specs.Places.{Position, at};

use crate::position::LinkedListPosition;

// What keeps a position for each index below some bound.
pub trait Container {
    // the position at each index; none of what is in no list
    ghost positions: { Self → List Position };

    // what is kept besides the positions
    ghost Rest: { Type 0 };

    // all but the positions
    ghost stripped: { Self → Rest };

    fn holds(&self, i: u32) -> bool
        ensures { result ≡ nat_lt i (length (positions self.now)) };

    fn position(&self, i: u32) -> Option<LinkedListPosition>
        ensures { result ≡ at (positions self.now) i };

    fn set_position(&mut self, i: u32, position: Option<LinkedListPosition>)
        ensures placed { positions self.new ≡ slice_set (positions self.old) i position }
        ensures kept { stripped self.new ≡ stripped self.old };
}
