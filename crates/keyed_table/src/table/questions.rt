ghost use Rattle.std.specs.Prelude.{◌≡◌, ◌-◌, length};
ghost use Rattle.keyed_table.specs.Listing.{found, has, value_at, Different};
ghost use Rattle.keyed_table.specs.Tables.{listing, room};
ghost use Rattle.std.specs.List.{slice_get};

use super::KeyedTable;
use crate::chains::{find, item_at, room_of};
use crate::rows::value_in;
use crate::slots::Item;
use keys::Key;

impl<'a, K: Copy, V: Copy> KeyedTable<'a, K, V> {
    // The position of the item with this number.
    pub(super) fn place(&self, number: u64) -> Option<u32>
        ensures { result ≡ found number (listing self.now) }
    {
        find(self.slots, number)
    }
}

impl<'a, K: Key, V: Copy> KeyedTable<'a, K, V> {
    /// How many items there are: below 2^32, so a `u32` counts them. No two have one number.
    pub fn len(&self) -> u32
        ensures count { result ≡ length (listing self.now) }
        ensures differ { Different (listing self.now) }
    {
        self.len
    }

    /// How many more items find a place.
    pub fn free(&self) -> u32
        ensures { result ≡ room self.now - length (listing self.now) }
    {
        room_of(self.slots.len()) - self.len
    }

    /// The position of the key: below 2^32.
    pub fn position(&self, key: &K) -> Option<u32>
        ensures { result ≡ found (K.code key.now) (listing self.now) }
    {
        self.place(key.number())
    }

    /// Whether the key is there.
    pub fn contains(&self, key: &K) -> bool
        ensures { result ≡ has (K.code key.now) (listing self.now) }
    {
        self.position(key).is_some()
    }

    /// The value of the key.
    pub fn get(&self, key: &K) -> Option<V>
        ensures { result ≡ value_at (K.code key.now) (listing self.now) }
    {
        let i = self.position(key)?;
        value_in(self.at(i))
    }

    /// The item at a position; none past the end.
    pub fn at(&self, i: u32) -> Option<Item<K, V>>
        ensures { result ≡ slice_get (listing self.now) i }
    {
        item_at(self.slots, i)
    }
}
