// A function here does nothing: its contract is the theorem, and the crate is proved only where the theorem is.
ghost use Rattle.network.specs.Network.{TouchedNodesAreTheEndsOfArcs};

/// The touched nodes are those at which an arc begins or ends, each listed once.
pub fn touched_nodes_are_the_ends_of_arcs()
    ensures { TouchedNodesAreTheEndsOfArcs }
{}
