ghost use Rattle.std.specs.Prelude.{◌≡◌, map, length, replicate, Some, None, slice_index_or, slice_set};
ghost use Rattle.graphmap.specs.Places.{neighbors, positions_of, blank_place};
ghost use Rattle.map_layout.specs.Layout.{partner};

use crate::link_place::LinkPlace;
use linked_list::slots::Slots;
use map_layout::IndexedKey;

/// The place of the other link of the same arc.
pub(crate) fn partner(place: u32) -> u32
    ensures { result ≡ partner place }
{
    if place % 2 == 0 { place + 1 } else { place - 1 }
}

/// The node at the other end of the link at a place.
pub(crate) fn neighbor_at<N: Copy>(links: &Slots<'_, LinkPlace<N>>, i: u32) -> Option<IndexedKey<N>>
    ensures { result ≡ slice_index_or (neighbors links.now.slots.now) i None }
{
    links.slots.get(i as usize)?.neighbor
}

// By index: after a slice's `get_mut` a proof knows only the length.
/// Writes the node at the other end of the link at a place.
pub(crate) fn set_neighbor<N: Copy>(
    links: &mut Slots<'_, LinkPlace<N>>,
    i: u32,
    neighbor: IndexedKey<N>,
)
    ensures neighbors { neighbors links.new.slots.now ≡ slice_set (neighbors links.old.slots.now) i (Some neighbor) }
    ensures positions { positions_of links.new.slots.now ≡ positions_of links.old.slots.now }
{
    let i = i as usize;
    if i < links.slots.len() {
        links.slots[i].neighbor = Some(neighbor);
    }
}

/// Empties every link place.
pub(crate) fn blank_all<N: Copy>(links: &mut Slots<'_, LinkPlace<N>>)
    ensures { links.new.slots.now ≡ replicate (length links.old.slots.now) blank_place }
{
    links.slots.fill(LinkPlace::blank());
}
