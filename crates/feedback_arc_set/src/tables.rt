ghost use Rattle.std.specs.Prelude.{◌≡◌, ◌*◌, ◌<◌, ◌≤◌, length, MatchOption};
ghost use Rattle.feedback_arc_set.specs.Orders.{Clean, Emptied, Granted, class_places, entry_places, neighbour_places, node_places};
ghost use Rattle.network.specs.Network.{touched};
ghost use Rattle.network.specs.Sources.{links};

use crate::container::FasNodeContainer;
use crate::places::{ClassPlace, NeighbourPlace};
use crate::sequence::order_nodes;
use keys::NodeIndex;
use network::ArcSource;

/// The lent tables of an ordering.
#[derive(Drop)]
pub(crate) struct WorkTables<'w> {
    pub(crate) nodes: FasNodeContainer<'w>,
    pub(crate) neighbours: &'w mut [NeighbourPlace],
    pub(crate) classes: &'w mut [ClassPlace],
    pub(crate) order: &'w mut [NodeIndex],
}

impl<'w> WorkTables<'w> {
    // Orders the nodes of a source with `arcs` arcs. None: they are more than the places for them.
    pub(crate) fn order_source<S: ArcSource>(&mut self, source: &S, arcs: u32) -> Option<u32>
        requires arcs { (arcs ≡ length (S.ArcSource.arcs source.now)) × (arcs ≤ 16384) }
        requires room { (2 * arcs ≤ length (neighbour_places self.old)) × (2 * arcs < length (class_places self.old)) }
        requires clean { Clean self.old }
        ensures ordered { MatchOption result ((node_places self.old < length (touched (links S.Node.index (S.ArcSource.arcs source.now)))) × Emptied self.old self.new) (λ n. (n ≤ node_places self.old) × Granted (links S.Node.index (S.ArcSource.arcs source.now)) self.old self.new n) }
        ensures slots { length (entry_places self.new) ≡ length (entry_places self.old) }
        ensures neighbours { neighbour_places self.new ≡ neighbour_places self.old }
        ensures classes { class_places self.new ≡ class_places self.old }
    {
        self.nodes.clear();
        let free = self.nodes.table.free() as usize;
        let most = self.order.len().min(4096).min(free) as u32;
        order_nodes(
            &mut self.nodes,
            self.neighbours,
            self.classes,
            self.order,
            source,
            arcs,
            most,
        )
    }
}
