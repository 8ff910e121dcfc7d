ghost use Rattle.std.specs.Prelude.{◌≡◌, ◌*◌, min, length, IfOk, vec_len};
ghost use Rattle.heap_tables.specs.Sizes.{twice};

use graphmap::{ArcPlace, LinkPlace, NodePlace, Places};
use keyed_table::Slot;
use std::alloc::{AllocError, Global};

/// Tables of a map: places for nodes, for arcs, and for two links of each arc. What stands in a place is of no account:
/// the map that is lent them empties them.
#[derive(Drop)]
pub struct MapTables<N, E> {
    nodes: Vec<NodePlace<N>>,
    arcs: Vec<ArcPlace<N, E>>,
    links: Vec<LinkPlace<N>>,
}

impl<N: Copy, E: Copy> MapTables<N, E> {
    /// Tables with so many node places and arc places.
    pub fn new(alloc: Global, nodes: usize, arcs: usize) -> Result<MapTables<N, E>, AllocError>
        ensures { IfOk result (λ tables. (vec_len tables.nodes ≡ nodes) × (vec_len tables.arcs ≡ arcs) × (vec_len tables.links ≡ twice arcs)) }
    {
        Ok(MapTables {
            nodes: vec![in alloc; Slot::blank(); nodes]?,
            arcs: vec![in alloc; Slot::blank(); arcs]?,
            links: vec![in alloc; LinkPlace::blank(); arcs.saturating_mul(2)]?,
        })
    }

    /// The places, to be lent to a map.
    pub fn places(&mut self) -> Places<'_, N, E>
        ensures nodes { length result.nodes.now ≡ vec_len self.old.nodes }
        ensures arcs { length result.arcs.now ≡ vec_len self.old.arcs }
        ensures links { length result.links.now ≡ vec_len self.old.links }
    {
        Places {
            nodes: self.nodes.as_mut_slice(),
            arcs: self.arcs.as_mut_slice(),
            links: self.links.as_mut_slice(),
        }
    }
}
