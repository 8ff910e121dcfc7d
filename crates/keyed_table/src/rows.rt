// The items in the first slots, and the steps of a table's calls on them.
ghost use Rattle.std.specs.Prelude.{◌≡◌, ℕ, ◌+◌, ◌^◌, ◌<◌, ◌≤◌, length, replicate, IfSome, Some, None, slice_index_or, slice_set};
ghost use Rattle.keyed_table.specs.Chains.{items, listed, Kept, Chains, Filled, value_in, revalued, filled_gap, blank_slot};

use crate::chains::{item_at, link, set_item, unlink};
use crate::slots::{Item, Slot};

// Makes every slot blank.
pub(crate) fn blank_all<K: Copy, V: Copy>(slots: &mut [Slot<K, V>])
    ensures { slots.new ≡ replicate (length slots.old) blank_slot }
{
    slots.fill(Slot::blank());
}

pub(crate) fn value_in<K: Copy, V: Copy>(item: Option<Item<K, V>>) -> Option<V>
    ensures { result ≡ value_in item }
{
    item.map(|item| item.value)
}

fn with_value<K: Copy, V: Copy>(item: Option<Item<K, V>>, value: V) -> Option<Item<K, V>>
    ensures { result ≡ revalued value item }
{
    item.map(|item| Item { value, ..item })
}

// Writes the value of the item in a slot, and answers the one that stood there.
pub(crate) fn replace<K: Copy, V: Copy>(slots: &mut [Slot<K, V>], i: u32, value: V) -> Option<V>
    ensures linked { Chains slots.old → Chains slots.new }
    ensures items { items slots.new ≡ slice_set (items slots.old) i (revalued value (slice_index_or (items slots.old) i None)) }
    ensures answer { result ≡ value_in (slice_index_or (items slots.old) i None) }
{
    let old = item_at(slots, i);
    set_item(slots, i, with_value(old, value));
    value_in(old)
}

// Takes the item at `i` out; the one at `last` fills the gap.
pub(crate) fn take_out<K: Copy, V: Copy>(slots: &mut [Slot<K, V>], i: u32, last: u32)
    requires { i ≤ last }
    ensures linked { Chains slots.old → last < length (items slots.old) → Chains slots.new }
    ensures items { Filled (items slots.old) (last + 1) → last < length (items slots.old) → (j : ℕ) → slice_index_or (items slots.new) j None ≡ filled_gap (items slots.old) i last j }
{
    let moved = item_at(slots, last);
    unlink(slots, i);
    if i < last {
        if let Some(item) = moved {
            unlink(slots, last);
            link(slots, i, item);
        }
    }
}
