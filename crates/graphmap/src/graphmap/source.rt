ghost use Rattle.std.specs.Prelude.{◌≡◌};
ghost use Rattle.graphmap.specs.Maps.{map_model};
ghost use Rattle.graphmap.specs.Sources.{arcs_shown};

use super::open::OpenMap;
use keys::{Key, NodeKey};
use network::{Arc, ArcSource};

/// The arcs of an open map are what all edges show.
impl<'m, 'a, N: NodeKey, E: Copy> ArcSource for OpenMap<'m, 'a, N, E> {
    type Node = N;

    type Weight = E;

    ghost arcs = { λ o. arcs_shown (map_model o.map.now) };

    #[tactic(auto, using(crate::proofs::Reading::many_arcs_shown))]
    fn arc_count(&self) -> u32 {
        self.edge_count()
    }

    fn arc_at(&self, position: u32) -> Option<Arc<N, E>> {
        self.map.tables.edge_shown(position).map(|(source, target, weight)| Arc {
            source,
            target,
            weight,
        })
    }
}
