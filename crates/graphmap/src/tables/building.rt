ghost use Rattle.std.specs.Prelude.{◌≡◌, length};
ghost use Rattle.graphmap.specs.States.{state, emptied};
ghost use Rattle.keyed_table.specs.Chains.{room_of};
ghost use Rattle.keyed_table.specs.Tables.{room};

use super::{ArcPlace, NodePlace, Tables};
use crate::link_place::LinkPlace;
use crate::places::blank_all;
use keyed_table::KeyedTable;
use linked_list::list::LinkedList;
use linked_list::slots::Slots;

impl<'a, N: Copy, E: Copy> Tables<'a, N, E> {
    /// Tables over these slices, with no node and no arc in them.
    pub(crate) fn new(
        nodes: &'a mut [NodePlace<N>],
        arcs: &'a mut [ArcPlace<N, E>],
        links: &'a mut [LinkPlace<N>],
    ) -> Tables<'a, N, E>
        ensures state { state result ≡ emptied N E (room_of (length nodes.old)) (room_of (length arcs.old)) (length links.old) }
    {
        let mut links = Slots { slots: links };
        blank_all(&mut links);
        Tables {
            nodes: KeyedTable::new(nodes),
            arcs: KeyedTable::new(arcs),
            links,
            unused: LinkedList::new(),
            fresh: 0,
        }
    }

    /// Takes every node and every arc out.
    pub(crate) fn clear(&mut self)
        ensures state { state self.new ≡ emptied N E (room self.old.nodes) (room self.old.arcs) (length self.old.links.slots.now) }
    {
        self.nodes.clear();
        self.arcs.clear();
        blank_all(&mut self.links);
        self.unused = LinkedList::new();
        self.fresh = 0;
    }
}
