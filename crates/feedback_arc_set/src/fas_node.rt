ghost use Rattle.std.specs.Prelude.{◌≡◌, ◌+◌, ◌^◌, ◌<◌, Some};
ghost use Rattle.feedback_arc_set.specs.Nodes.{blank_node, degree_of, first_of, lowered_node, led_node, placed_node};

use linked_list::position::LinkedListPosition;
use network::CompactDirection;

/// The working entry of a node.
#[derive(Clone, Copy)]
pub struct FasNode {
    // where it stands in the list of its class; free once taken
    pub(crate) position: Option<LinkedListPosition>,
    // the degrees among the nodes that are not taken
    pub(crate) out_degree: u32,
    pub(crate) in_degree: u32,
    // where the lists of its out and in neighbours begin
    pub(crate) first_out: Option<u32>,
    pub(crate) first_in: Option<u32>,
    // its place in the order, once taken
    pub(crate) place: u32,
}

impl FasNode {
    /// An entry with no arcs, in no class.
    pub fn blank() -> FasNode
        ensures { result ≡ blank_node }
    {
        FasNode {
            position: None,
            out_degree: 0,
            in_degree: 0,
            first_out: None,
            first_in: None,
            place: 0,
        }
    }

    // The entry with one arc less.
    pub(crate) fn lowered(self, direction: CompactDirection) -> FasNode
        ensures { result ≡ lowered_node direction self }
    {
        match direction {
            CompactDirection::Outgoing => FasNode {
                out_degree: self.out_degree.saturating_sub(1),
                ..self
            },
            CompactDirection::Incoming => FasNode {
                in_degree: self.in_degree.saturating_sub(1),
                ..self
            },
        }
    }

    // Where the list of its neighbours begins.
    pub(crate) fn first(self, direction: CompactDirection) -> Option<u32>
        ensures { result ≡ first_of direction self }
    {
        match direction {
            CompactDirection::Outgoing => self.first_out,
            CompactDirection::Incoming => self.first_in,
        }
    }

    // The entry with one arc more, whose neighbour stands at `place`.
    pub(crate) fn led(self, direction: CompactDirection, place: u32) -> FasNode
        requires { degree_of direction self + 1 < 2 ^ 32 }
        ensures { result ≡ led_node direction place self }
    {
        match direction {
            CompactDirection::Outgoing => FasNode {
                out_degree: self.out_degree + 1,
                first_out: Some(place),
                ..self
            },
            CompactDirection::Incoming => FasNode {
                in_degree: self.in_degree + 1,
                first_in: Some(place),
                ..self
            },
        }
    }

    // The entry with its place in the order.
    pub(crate) fn placed(self, place: u32) -> FasNode
        ensures { result ≡ placed_node place self }
    {
        FasNode { place, ..self }
    }
}
