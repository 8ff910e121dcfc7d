// Network files: read and checked. A file is a contents table, node numbers and arcs, all in 32-bit fields.

#![tactic(auto)]

mod arc;
mod checks;
mod fields;
mod records;
mod view;
mod walk;

pub use arc::FileArc;
pub use checks::check;
pub use fields::{FILE_LIMIT, field};
pub use view::NetworkFile;
pub use walk::{Arcs, Numbers};
