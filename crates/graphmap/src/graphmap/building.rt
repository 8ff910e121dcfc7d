ghost use Rattle.std.specs.Prelude.{◌≡◌, true, false, [], length, if◌then◌else◌};
ghost use Rattle.graphmap.specs.Capacity.{places_fit, capacity_answer};
ghost use Rattle.graphmap.specs.Maps.{map_model};
ghost use Rattle.map_model.specs.Model.{built};

use super::GraphMap;
use crate::lent::Places;
use crate::tables::Tables;
use fault::Fault;
use keys::{Key, NodeKey};

impl<'a, N: NodeKey, E: Copy> GraphMap<'a, N, E> {
    /// A map without places.
    pub fn new() -> GraphMap<'a, N, E>
        ensures { map_model result ≡ built 0 0 }
    {
        GraphMap {
            tables: Tables::new(&mut [], &mut [], &mut []),
        }
    }

    /// Gives the map these places, which are taken, and empties it.
    ///
    /// Fault 1, and nothing has changed, where there are over 4,096 node places, over 16,384 arc places or fewer link places
    /// than twice the arc places.
    pub fn with_capacity(&mut self, places: &mut Places<'a, N, E>) -> Result<(), Fault>
        ensures answer { result ≡ capacity_answer (places_fit places.old) }
        ensures shown { map_model self.new ≡ (if places_fit places.old then built (length places.old.nodes.now) (length places.old.arcs.now) else map_model self.old) }
        ensures refused { places_fit places.old ≡ false → (self.new ≡ self.old) × (places.new ≡ places.old) }
        ensures taken { places_fit places.old ≡ true → (places.new.nodes.now ≡ []) × (places.new.arcs.now ≡ []) × (places.new.links.now ≡ []) }
    {
        if !places.fit() {
            return Err(Fault::TablesUnfit);
        }
        let nodes = std::mem::take(&mut places.nodes);
        let arcs = std::mem::take(&mut places.arcs);
        let links = std::mem::take(&mut places.links);
        self.tables = Tables::new(nodes, arcs, links);
        Ok(())
    }

    /// Removes every node and every arc. The places stay.
    pub fn clear(&mut self)
        ensures { map_model self.new ≡ built (map_model self.old).node_places (map_model self.old).arc_places }
    {
        self.tables.clear();
    }
}
