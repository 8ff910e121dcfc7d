ghost use Rattle.std.specs.Prelude.{◌≡◌};
ghost use Rattle.map_layout.specs.Steps.{lone};

use keys::{Key, NodeIndex, NodeKey};

/// A node of a map. Its links are a list of link places, the newest first; this is where the list begins and ends.
#[derive(Clone, Copy)]
pub struct NodeRecord<N> {
    pub key: N,
    pub newest: Option<u32>,
    pub oldest: Option<u32>,
}

impl<N> NodeRecord<N> {
    /// A node without links.
    pub fn new(key: N) -> NodeRecord<N>
        ensures { result ≡ lone key }
    {
        NodeRecord {
            key,
            newest: None,
            oldest: None,
        }
    }
}

/// An arc of a map, and the place of its outgoing link. That of its incoming link, unless the arc is a loop, is the next one.
#[derive(Clone, Copy)]
pub struct ArcRecord<N, E> {
    pub source: N,
    pub target: N,
    pub weight: E,
    pub place: u32,
}

/// A key with the index of the node that it names: an end of an arc, and the node at the other end of a link.
#[derive(Clone, Copy)]
pub struct IndexedKey<N> {
    pub key: N,
    pub index: NodeIndex,
}

impl<N: NodeKey> IndexedKey<N> {
    /// A key with its index.
    pub fn new(key: N) -> IndexedKey<N>
        ensures key { result.key ≡ key }
        ensures index { result.index.value ≡ N.NodeKey.index key }
    {
        IndexedKey {
            key,
            index: key.node_index(),
        }
    }
}
