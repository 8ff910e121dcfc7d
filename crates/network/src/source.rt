ghost use Rattle.std.specs.Prelude.{◌≡◌, List, length};
ghost use Rattle.network.specs.declared.arc.Arc.{Arc};
ghost use Rattle.std.specs.List.{slice_get};

use crate::arc::Arc;
use keys::key::NodeKey;

/// What answers for a list of arcs whose nodes are all named by one kind of key. An arc may be listed more than once. A question changes nothing, so the answers stay.
pub trait ArcSource {
    type Node: NodeKey;

    type Weight: Copy;

    /// The list that the source answers for.
    ghost arcs: { Self → List (Arc Self.Node Self.Weight) };

    /// How many arcs there are: fewer than 2^32.
    fn arc_count(&self) -> u32
        ensures { result ≡ length (arcs self.now) };

    /// The arc at a position, counted from 0; none past the end.
    fn arc_at(&self, position: u32) -> Option<Arc<Self::Node, Self::Weight>>
        ensures { result ≡ slice_get (arcs self.now) position };
}
