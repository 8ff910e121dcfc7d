ghost use Rattle.std.specs.Prelude.{◌≡◌};
ghost use Rattle.map_layout.specs.Edits.{ends_of};

use crate::link_place::LinkPlace;
use keyed_table::{KeyedTable, Slot};
use keys::{Ends, NodeIndex};
use linked_list::list::LinkedList;
use linked_list::slots::Slots;
use map_layout::{ArcRecord, IndexedKey, NodeRecord};

pub(crate) mod adding;
pub(crate) mod building;
pub(crate) mod questions;
pub(crate) mod reading;
pub(crate) mod removing;
pub(crate) mod steps;
pub(crate) mod walking;

/// A place for one node. Its content is the map's own.
pub type NodePlace<N> = Slot<NodeIndex, NodeRecord<N>>;

/// A place for one arc. Its content is the map's own.
pub type ArcPlace<N, E> = Slot<Ends<NodeIndex>, ArcRecord<N, E>>;

/// The tables of a map. A node and an arc are looked up by index, so that a link, which names the other end by key and
/// index, leads to it whatever the keys are.
#[derive(Drop)]
pub struct Tables<'a, N, E> {
    pub(crate) nodes: KeyedTable<'a, NodeIndex, NodeRecord<N>>,
    pub(crate) arcs: KeyedTable<'a, Ends<NodeIndex>, ArcRecord<N, E>>,
    pub(crate) links: Slots<'a, LinkPlace<N>>,
    // the places of arcs that went, one for each
    pub(crate) unused: LinkedList,
    // from here on no place was ever used
    pub(crate) fresh: u32,
}

// The ends of an arc by their indices alone.
fn indices<N: Copy>(ends: Ends<IndexedKey<N>>) -> Ends<NodeIndex>
    ensures { result ≡ ends_of ends.source.index ends.target.index }
{
    Ends {
        source: ends.source.index,
        target: ends.target.index,
    }
}
