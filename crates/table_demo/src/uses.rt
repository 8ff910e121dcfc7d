// The keyed table at any key.
ghost use Rattle.std.specs.Prelude.{◌≡◌, [], length};
ghost use Rattle.keyed_table.specs.Chains.{room_of};
ghost use Rattle.keyed_table.specs.Listing.{value_at, without, inserted};

use keyed_table::{KeyedTable, Slot};
use keys::Key;

/// Puts a value at a key and another value at another key, and takes the first key out: what is left at the other key.
pub fn left_at_other<K: Key>(
    slots: &mut [Slot<K, u32>],
    key: K,
    other: K,
    first: u32,
    second: u32,
) -> Option<u32>
    ensures { result ≡ value_at (K.code other) (without (K.code key) (inserted (room_of (length slots.old)) (K.code other) other second (inserted (room_of (length slots.old)) (K.code key) key first []))) }
{
    let mut table = KeyedTable::new(slots);
    let _ = table.insert(key, first);
    let _ = table.insert(other, second);
    let _ = table.swap_remove(&key);
    table.get(&other)
}
