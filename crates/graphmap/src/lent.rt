ghost use Rattle.std.specs.Prelude.{◌≡◌};
ghost use Rattle.graphmap.specs.Capacity.{places_fit};

use crate::link_place::LinkPlace;
use crate::tables::{ArcPlace, NodePlace};

/// Places to be lent to a map.
#[derive(Drop)]
pub struct Places<'a, N, E> {
    pub nodes: &'a mut [NodePlace<N>],
    pub arcs: &'a mut [ArcPlace<N, E>],
    pub links: &'a mut [LinkPlace<N>],
}

impl<'a, N, E> Places<'a, N, E> {
    /// Whether a map can have them: at most 4,096 node places, at most 16,384 arc places and twice as many link places.
    pub fn fit(&self) -> bool
        ensures { result ≡ places_fit self.now }
    {
        self.nodes.len() <= 4096
            && self.arcs.len() <= 16384
            && 2 * self.arcs.len() <= self.links.len()
    }
}
