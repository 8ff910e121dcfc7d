// Networks: arcs with weights, and what answers for a list of them.
// The vocabulary (loop, opposite, touched, closed walk, place, held) stands in specs/.

#![tactic(auto)]

pub mod arc;
pub mod arc_slice;
pub mod arcs;
pub mod counts;
pub mod direction;
pub mod source;
pub mod theorems;

pub use arc::Arc;
pub use arc_slice::ArcSlice;
pub use arcs::Arcs;
pub use counts::loop_count;
pub use direction::CompactDirection;
pub use source::ArcSource;
