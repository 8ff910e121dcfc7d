// The most arcs of a map that could have been held, for the auditor.

#![tactic(auto)]

ghost use Rattle.std.specs.Prelude.{◌≡◌};
ghost use Rattle.graphmap.specs.Maps.{map_model};
ghost use Rattle.most_held.specs.Bounds.{bound_by_nodes, Bounded, bounds, NoMoreAreHeld, opposed, opposites};

use graphmap::OpenMap;
use greedy_order::bounds::{most_held_by_half, most_held_by_nodes};
use keys::{Key, NodeKey};
use network::{Arc, ArcSource, Arcs, loop_count};

/// Two bounds on how many arcs an order holds.
#[derive(Clone, Copy)]
pub struct MostHeld {
    /// Half of the arcs other than loops, rounded down, and the loops.
    pub by_half: u32,
    /// A sixth of three times the arcs less the touched nodes, rounded down; only without loops and opposite arcs.
    pub by_nodes: Option<u32>,
}

// Whether an arc is no loop, and the map has one from its target to its source.
fn has_opposite<N: NodeKey, E: Copy>(map: &OpenMap<'_, '_, N, E>, arc: Arc<N, E>) -> bool
    ensures { result ≡ opposed N.NodeKey.index (map_model map.now.map.now) arc }
{
    !arc.is_loop() && map.contains_edge(arc.target, arc.source)
}

/// How many arcs of a map have an opposite in it.
pub fn opposite_count<N: NodeKey, E: Copy>(map: &OpenMap<'_, '_, N, E>) -> u32
    ensures { result ≡ opposites N.NodeKey.index (map_model map.now.map.now) }
{
    let opposites = Arcs::new(map).filter(|arc| has_opposite(map, *arc)).count();
    opposites as u32
}

// The bound by nodes, where it holds.
fn by_nodes(arcs: u32, touched: u32, loops: u32, opposites: u32) -> Option<u32>
    ensures value { result ≡ bound_by_nodes arcs touched loops opposites }
    ensures bound { Bounded arcs touched result }
{
    (loops == 0 && opposites == 0).then(|| most_held_by_nodes(arcs, touched))
}

/// The most arcs of a map that could have been held, where its order lists `touched` nodes.
pub fn most_held<N: NodeKey, E: Copy>(map: &OpenMap<'_, '_, N, E>, touched: u32) -> MostHeld
    ensures value { result ≡ bounds N.NodeKey.index (map_model map.now.map.now) touched }
    ensures bound { NoMoreAreHeld N.NodeKey.index (map_model map.now.map.now) touched result }
{
    let arcs = map.arc_count();
    let loops = loop_count(map);
    MostHeld {
        by_half: most_held_by_half(arcs, loops),
        by_nodes: by_nodes(arcs, touched, loops, opposite_count(map)),
    }
}
