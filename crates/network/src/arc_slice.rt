ghost use Rattle.std.specs.Prelude.{◌≡◌, ℕ, ◌^◌, ◌<◌, ◌≤◌, length, Some, None};
ghost use Rattle.std.specs.List.{slice_get};

use crate::arc::Arc;
use crate::source::ArcSource;
use keys::key::NodeKey;

/// Arcs in a slice that is lent, fewer than 2^32.
#[derive(Drop)]
pub struct ArcSlice<'a, N, E> {
    arcs: &'a [Arc<N, E>],
    ghost few: { length arcs.now < 2 ^ 32 },
}

impl<'a, N: NodeKey, E: Copy> ArcSlice<'a, N, E> {
    /// The arcs of a slice as a source; none where there are 2^32 or more.
    pub fn new(arcs: &'a [Arc<N, E>]) -> Option<ArcSlice<'a, N, E>>
        ensures { elim result [ Some s ↦ s.arcs.now ≡ arcs.now | None ↦ 2 ^ 32 ≤ length arcs.now ] }
    {
        if arcs.len() < 4_294_967_296 {
            Some(ArcSlice { arcs })
        } else {
            None
        }
    }
}

impl<'a, N: NodeKey, E: Copy> ArcSource for ArcSlice<'a, N, E> {
    type Node = N;

    type Weight = E;

    ghost arcs = { λ s. s.arcs.now };

    fn arc_count(&self) -> u32 {
        self.arcs.len() as u32
    }

    fn arc_at(&self, position: u32) -> Option<Arc<N, E>> {
        self.arcs.get(position as usize).copied()
    }
}
