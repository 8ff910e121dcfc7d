// Keys: what names a node, an arc or a working entry, and the number that each one means.

#![tactic(auto)]

pub mod ends;
pub mod fas_node_index;
pub mod junction;
pub mod key;
pub mod lane;
pub mod node_index;

pub use ends::Ends;
pub use fas_node_index::FasNodeIndex;
pub use junction::Junction;
pub use key::{Key, NodeKey, mix};
pub use lane::{LaneAddress, LaneRecord};
pub use node_index::NodeIndex;
