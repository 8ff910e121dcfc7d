ghost use Rattle.keyed_table.specs.Chains.{Kept};

use crate::slots::Slot;

pub mod edits;
pub mod items;
pub mod questions;

/// An insertion-ordered map over a lent slice of slots. It means a list of items, no two with one number, in the
/// sequence in which they came. The items fill the first slots, and the chains of the buckets lie in the slots too.
#[derive(Drop)]
pub struct KeyedTable<'a, K, V> {
    slots: &'a mut [Slot<K, V>],
    len: u32,
    // the slots keep a list of `len` items
    ghost kept: { Kept slots.now len },
}
