ghost use Rattle.std.specs.Prelude.{◌≡◌};
ghost use Rattle.std.specs.Iterator.{YieldsFirst, item_count};
ghost use Rattle.keyed_table.specs.Tables.{listing, items_left};

use super::KeyedTable;
use crate::slots::Item;
use keys::Key;

/// The items of a table from a position on, in table sequence.
#[derive(Drop)]
pub struct Items<'t, 'a, K, V> {
    table: &'t KeyedTable<'a, K, V>,
    position: u32,
}

impl<'t, 'a, K: Key, V: Copy> Iterator for Items<'t, 'a, K, V> {
    type Item = Item<K, V>;

    ghost next_gives = { YieldsFirst items_left };

    ghost remaining = { item_count items_left };

    fn next(&mut self) -> Option<Item<K, V>> {
        let item = self.table.at(self.position)?;
        self.position += 1;
        Some(item)
    }
}

impl<'a, K: Key, V: Copy> KeyedTable<'a, K, V> {
    /// The items, in table sequence.
    pub fn iter<'t>(&'t self) -> Items<'t, 'a, K, V>
        ensures { items_left result ≡ listing self.now }
    {
        Items {
            table: self,
            position: 0,
        }
    }
}
