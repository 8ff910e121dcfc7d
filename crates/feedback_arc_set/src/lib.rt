// A greedy feedback-arc order of the nodes of an arc source, in lent working tables.

#![tactic(auto)]

mod buckets;
mod container;
mod entering;
pub mod fas_node;
mod halves;
pub mod held;
mod laying;
mod neighbours;
pub mod ordering;
pub mod places;
mod rounds;
mod sequence;
mod tables;

pub use fas_node::FasNode;
pub use held::{HeldArc, HeldArcs};
pub use ordering::Ordering;
pub use places::{ClassPlace, NeighbourPlace};
