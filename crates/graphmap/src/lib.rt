// A directed graph map over lent tables.

#![tactic(auto)]

pub mod graphmap;
pub mod lent;
pub mod link_place;
mod places;
pub mod tables;

pub use graphmap::GraphMap;
pub use graphmap::cursors::{AllEdges, Nodes};
pub use graphmap::links::{EdgesDirected, NeighborsDirected};
pub use graphmap::open::OpenMap;
pub use lent::Places;
pub use link_place::LinkPlace;
pub use tables::{ArcPlace, NodePlace};
