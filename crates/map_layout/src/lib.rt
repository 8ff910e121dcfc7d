// The tables of a graph map: what they hold, which map they stand for, and what one step on them does to it.

#![tactic(auto)]

pub mod records;

pub use records::{ArcRecord, IndexedKey, NodeRecord};
