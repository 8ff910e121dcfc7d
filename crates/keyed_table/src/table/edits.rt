ghost use Rattle.std.specs.Prelude.{◌≡◌, [], length, replicate, nat_lt};
ghost use Rattle.keyed_table.specs.Chains.{room_of, blank_slot};
ghost use Rattle.keyed_table.specs.Listing.{value_at, insert_answer, inserted, changed_at, without};
ghost use Rattle.keyed_table.specs.Tables.{places, listing, room};

use super::KeyedTable;
use crate::chains::link;
use crate::rows::{blank_all, replace, take_out, value_in};
use crate::slots::{Full, Item, Slot};
use keys::Key;

impl<'a, K: Key, V: Copy> KeyedTable<'a, K, V> {
    /// An empty table over these slots, which it blanks.
    pub fn new(slots: &'a mut [Slot<K, V>]) -> KeyedTable<'a, K, V>
        ensures listing { listing result ≡ [] }
        ensures places { places result ≡ replicate (length slots.old) blank_slot }
        ensures room { room result ≡ room_of (length slots.old) }
    {
        blank_all(slots);
        KeyedTable { slots, len: 0 }
    }

    /// Takes every item out and blanks every slot.
    pub fn clear(&mut self)
        ensures listing { listing self.new ≡ [] }
        ensures places { places self.new ≡ replicate (length (places self.old)) blank_slot }
        ensures room { room self.new ≡ room self.old }
    {
        blank_all(self.slots);
        self.len = 0;
    }

    /// Gives the key this value. A key that is there keeps its position and its stored key, and the old value is the
    /// answer; a new key comes last. Without a place for it the answer is `Full`, and nothing has changed.
    pub fn insert(&mut self, key: K, value: V) -> Result<Option<V>, Full>
        ensures answer { result ≡ insert_answer (room self.old) (K.code key) (listing self.old) }
        ensures listing { listing self.new ≡ inserted (room self.old) (K.code key) key value (listing self.old) }
        ensures size { length (places self.new) ≡ length (places self.old) }
    {
        let number = key.number();
        if let Some(i) = self.place(number) {
            return Ok(replace(self.slots, i, value));
        }
        if self.free() == 0 {
            return Err(Full);
        }
        link(self.slots, self.len, Item { number, key, value });
        self.len += 1;
        Ok(None)
    }

    /// Changes the value at a position. Past the end the answer is `false`, and nothing has changed.
    pub fn set_at(&mut self, i: u32, value: V) -> bool
        ensures answer { result ≡ nat_lt i (length (listing self.old)) }
        ensures listing { listing self.new ≡ changed_at i value (listing self.old) }
        ensures size { length (places self.new) ≡ length (places self.old) }
    {
        if i < self.len {
            let _ = replace(self.slots, i, value);
            true
        } else {
            false
        }
    }

    /// Takes the key out and answers its value. The last item moves into the gap.
    pub fn swap_remove(&mut self, key: &K) -> Option<V>
        ensures answer { result ≡ value_at (K.code key.now) (listing self.old) }
        ensures listing { listing self.new ≡ without (K.code key.now) (listing self.old) }
        ensures size { length (places self.new) ≡ length (places self.old) }
    {
        let i = self.position(key)?;
        let value = value_in(self.at(i));
        let last = self.len - 1;
        take_out(self.slots, i, last);
        self.len = last;
        value
    }
}
