ghost use Rattle.std.specs.Prelude.{◌≡◌, ◌^◌, ◌<◌, drop, length};
ghost use Rattle.std.specs.Iterator.{YieldsFirst, item_count};

use crate::arc::Arc;
use crate::source::ArcSource;
use std::ops::Range;

/// The arcs of a source, in its sequence.
#[derive(Drop)]
pub struct Arcs<'s, S: ArcSource> {
    source: &'s S,
    // the positions of the arcs that are still to come
    positions: Range<u32>,
    ghost all: { positions.end ≡ length (S.arcs source.now) },
}

impl<'s, S: ArcSource> Arcs<'s, S> {
    /// The arcs of a source, from the first on: fewer than 2^32.
    pub fn new(source: &'s S) -> Arcs<'s, S>
        ensures source { result.source.now ≡ source.now }
        ensures first { result.positions.start ≡ 0 }
        ensures few { length (S.ArcSource.arcs source.now) < 2 ^ 32 }
    {
        Arcs {
            source,
            positions: 0..source.arc_count(),
        }
    }
}

impl<'s, S: ArcSource> Iterator for Arcs<'s, S> {
    type Item = Arc<S::Node, S::Weight>;

    ghost next_gives = { YieldsFirst (λ s. drop s.positions.start (S.ArcSource.arcs s.source.now)) };

    ghost remaining = { item_count (λ s. drop s.positions.start (S.ArcSource.arcs s.source.now)) };

    fn next(&mut self) -> Option<Arc<S::Node, S::Weight>> {
        let position = self.positions.next()?;
        self.source.arc_at(position)
    }
}
