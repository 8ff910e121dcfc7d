ghost use Rattle.std.specs.Prelude.{◌≡◌, ◌≤◌};
ghost use Rattle.graphmap.specs.States.{state};
ghost use Rattle.map_layout.specs.Edits.{Good};

use crate::tables::Tables;
use keys::{Ends, Key, NodeIndex, NodeKey};

pub mod building;
pub mod cursors;
pub mod edits;
pub mod links;
pub mod open;
pub mod questions;
pub mod source;
mod walk;

/// A directed graph map over lent tables, for every node key `N` and every weight `E` that can be copied.
///
/// Nodes and arcs keep the sequence in which they came; one that is removed is replaced by the last. The links of a node
/// keep the sequence of its arcs in the same way.
#[derive(Drop)]
pub struct GraphMap<'a, N, E> {
    tables: Tables<'a, N, E>,
    ghost few: { (state tables).arc_places ≤ 16384 },
    ghost good: { ∥ Good (state tables) ∥₁ },
}

// The indices of the ends of the edge from `a` to `b`.
fn between<N: NodeKey>(a: N, b: N) -> Ends<NodeIndex>
    ensures source { result.source.value ≡ N.NodeKey.index a }
    ensures target { result.target.value ≡ N.NodeKey.index b }
{
    Ends {
        source: a.node_index(),
        target: b.node_index(),
    }
}
