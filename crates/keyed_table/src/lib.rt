// An insertion-ordered map over a lent slice of slots, looked up by hash chains inside the slots.

#![tactic(auto)]

mod chains;
mod rows;
pub mod slots;
pub mod table;

pub use slots::{Full, Item, Slot};
pub use table::KeyedTable;
pub use table::items::Items;
