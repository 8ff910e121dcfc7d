ghost use Rattle.std.specs.Prelude.{◌≡◌};
ghost use Rattle.map_layout.specs.Layout.{direction_at, link_to};
ghost use Rattle.map_model.specs.Shown.{shows};

use keys::NodeIndex;
use map_layout::IndexedKey;
use map_model::CompactDirection;

// An even place holds an outgoing link, an odd one an incoming link.
fn direction_at(place: u32) -> CompactDirection
    ensures { result ≡ direction_at place }
{
    if place % 2 == 0 {
        CompactDirection::Outgoing
    } else {
        CompactDirection::Incoming
    }
}

/// Whether a direction shows the link at a place of the node `index`.
pub(crate) fn shows<N: Copy>(
    index: NodeIndex,
    direction: CompactDirection,
    place: u32,
    neighbor: IndexedKey<N>,
) -> bool
    ensures { result ≡ shows index.value direction (link_to place neighbor) }
{
    direction_at(place) == direction || neighbor.index == index
}
