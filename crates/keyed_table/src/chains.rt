// The chains of the buckets. A chain goes through the positions of its bucket from the highest down.
ghost use Rattle.std.specs.Prelude.{is_some, ◌≡◌, ℕ, suc, ◌+◌, ◌^◌, ◌<◌, ◌≤◌, true, false, length, Some, None, MatchOption, ◌≢◌, slice_index, slice_index_or, slice_set};
ghost use Rattle.keyed_table.specs.Chains.{items, heads, nexts, room_of, bucket, height, homes, falling, Chains, Above, heads_to, nexts_to, holds_number};

use crate::slots::{Item, Slot};
use keys::mix;

// How many items a slice of `n` slots can hold.
pub(crate) fn room_of(n: usize) -> u32
    ensures { result ≡ room_of n }
{
    u32::try_from(n).unwrap_or(u32::MAX)
}

// The bucket of a number among those of `n` slots.
fn bucket_of(n: usize, number: u64) -> usize
    ensures { result ≡ bucket n number }
{
    ((mix(number) * u64::from(room_of(n))) >> 32) as usize
}

pub(crate) fn item_at<K: Copy, V: Copy>(slots: &[Slot<K, V>], i: u32) -> Option<Item<K, V>>
    ensures { result ≡ slice_index_or (items slots.now) i None }
{
    slots.get(i as usize)?.item
}

fn head_at<K: Copy, V: Copy>(slots: &[Slot<K, V>], i: usize) -> Option<u32>
    ensures { height result ≡ slice_index (heads slots.now) i }
{
    slots.get(i)?.head
}

// The link after position `i`. It is followed only downwards, so every walk ends, whatever the slots hold.
fn next_at<K: Copy, V: Copy>(slots: &[Slot<K, V>], i: u32) -> Option<u32>
    ensures { height result ≡ falling i (slice_index (nexts slots.now) i) }
{
    slots.get(i as usize)?.next.filter(|next| *next < i)
}

// Three setters, and each tests its index: one by a closure would state the closure's effect at each call, and after a
// slice's `get_mut` a proof knows only the length.
pub(crate) fn set_item<K: Copy, V: Copy>(slots: &mut [Slot<K, V>], i: u32, item: Option<Item<K, V>>)
    ensures items { items slots.new ≡ slice_set (items slots.old) i item }
    ensures heads { heads slots.new ≡ heads slots.old }
    ensures nexts { nexts slots.new ≡ nexts slots.old }
{
    let i = i as usize;
    if i < slots.len() {
        slots[i].item = item;
    }
}

fn set_head<K: Copy, V: Copy>(slots: &mut [Slot<K, V>], i: usize, head: Option<u32>)
    ensures items { items slots.new ≡ items slots.old }
    ensures heads { heads slots.new ≡ slice_set (heads slots.old) i (height head) }
    ensures nexts { nexts slots.new ≡ nexts slots.old }
{
    if i < slots.len() {
        slots[i].head = head;
    }
}

fn set_next<K: Copy, V: Copy>(slots: &mut [Slot<K, V>], i: u32, next: Option<u32>)
    ensures items { items slots.new ≡ items slots.old }
    ensures heads { heads slots.new ≡ heads slots.old }
    ensures nexts { nexts slots.new ≡ slice_set (nexts slots.old) i (height next) }
{
    let i = i as usize;
    if i < slots.len() {
        slots[i].next = next;
    }
}

fn holds_number<K: Copy, V: Copy>(slots: &[Slot<K, V>], i: u32, number: u64) -> bool
    ensures { result ≡ holds_number number (slice_index_or (items slots.now) i None) }
{
    item_at(slots, i).is_some_and(|item| item.number == number)
}

// A walk ends because positions fall; `successors` has no end that a proof can see.
// The position that holds a number.
pub(crate) fn find<K: Copy, V: Copy>(slots: &[Slot<K, V>], number: u64) -> Option<u32>
    ensures { Chains slots.now → MatchOption result ((j : ℕ) → holds_number number (slice_index_or (items slots.now) j None) ≢ true) (λ i. holds_number number (slice_index_or (items slots.now) i None) ≡ true) }
{
    let mut at = head_at(slots, bucket_of(slots.len(), number));
    while let Some(i) = at {
        if holds_number(slots, i, number) {
            return Some(i);
        }
        at = next_at(slots, i);
    }
    None
}

// A place in a bucket's chain: `over` is the position whose link leads to it, none where the bucket's head does; the chain
// goes on at `at`.
#[derive(Clone, Copy)]
struct Gap {
    over: Option<u32>,
    at: Option<u32>,
}

// Where a bucket's chain goes from the positions above `i` on to `i` and those below.
fn gap_at<K: Copy, V: Copy>(slots: &[Slot<K, V>], b: usize, i: u32) -> Gap
    ensures { Chains slots.now → b < length (items slots.now) → i < length (items slots.now) → Above (homes (items slots.now)) b (suc i) (length (items slots.now)) (height result.over) (height result.at) }
{
    let mut over = None;
    let mut at = head_at(slots, b);
    while let Some(above) = at {
        if above <= i {
            break;
        }
        over = at;
        at = next_at(slots, above);
    }
    Gap { over, at }
}

// Writes the link above a gap.
fn lead<K: Copy, V: Copy>(slots: &mut [Slot<K, V>], b: usize, over: Option<u32>, to: Option<u32>)
    ensures items { items slots.new ≡ items slots.old }
    ensures heads { heads slots.new ≡ heads_to b (height over) (height to) (heads slots.old) }
    ensures nexts { nexts slots.new ≡ nexts_to (height over) (height to) (nexts slots.old) }
{
    match over {
        Some(above) => set_next(slots, above, to),
        None => set_head(slots, b, to),
    }
}

// Puts an item into a slot that holds none, and into its bucket's chain.
pub(crate) fn link<K: Copy, V: Copy>(slots: &mut [Slot<K, V>], i: u32, item: Item<K, V>)
    ensures linked { Chains slots.old → i < length (items slots.old) → is_some (slice_index_or (items slots.old) i None) ≡ false → Chains slots.new }
    ensures items { items slots.new ≡ slice_set (items slots.old) i (Some item) }
{
    let b = bucket_of(slots.len(), item.number);
    let gap = gap_at(slots, b, i);
    set_item(slots, i, Some(item));
    set_next(slots, i, gap.at);
    lead(slots, b, gap.over, Some(i));
}

// Takes the item out of a slot, and out of its bucket's chain.
pub(crate) fn unlink<K: Copy, V: Copy>(slots: &mut [Slot<K, V>], i: u32)
    ensures linked { Chains slots.old → i < length (items slots.old) → Chains slots.new }
    ensures items { items slots.new ≡ slice_set (items slots.old) i None }
{
    let Some(item) = item_at(slots, i) else {
        return;
    };
    let b = bucket_of(slots.len(), item.number);
    let gap = gap_at(slots, b, i);
    let after = next_at(slots, i);
    set_item(slots, i, None);
    lead(slots, b, gap.over, after);
}
