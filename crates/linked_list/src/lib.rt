// Doubly linked lists of indices, over any container that keeps a position for each index.

#![tactic(auto)]

pub mod container;
pub mod laws;
pub mod list;
pub mod position;
pub mod slots;
pub mod walk;
