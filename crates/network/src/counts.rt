ghost use Rattle.std.specs.Prelude.{◌≡◌};
ghost use Rattle.network.specs.Network.{loops};
ghost use Rattle.network.specs.Sources.{links};

use crate::arcs::Arcs;
use crate::source::ArcSource;

/// How many arcs of a source are loops.
pub fn loop_count<S: ArcSource>(source: &S) -> u32
    ensures { result ≡ loops (links S.Node.NodeKey.index (S.ArcSource.arcs source.now)) }
{
    let loops = Arcs::new(source).filter(|arc| arc.is_loop()).count();
    loops as u32
}
