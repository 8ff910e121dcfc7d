ghost use Rattle.std.specs.Prelude.{◌≡◌, Some, codes};
ghost use Rattle.keyed_table.specs.Chains.{blank_slot};

use std::error::Error;
use std::fmt;

/// A pair of a table, with the number that its key means.
#[derive(Clone, Copy, PartialEq, Eq, Debug)]
pub struct Item<K, V> {
    pub number: u64,
    pub key: K,
    pub value: V,
}

/// A place for one item. Its content beyond that is the table's own.
#[derive(Clone, Copy)]
pub struct Slot<K, V> {
    pub(crate) item: Option<Item<K, V>>,
    // the last position of the bucket with this slot's index
    pub(crate) head: Option<u32>,
    // the next lower position in this item's bucket
    pub(crate) next: Option<u32>,
}

impl<K, V> Slot<K, V> {
    /// A slot that holds nothing.
    pub fn blank() -> Slot<K, V>
        ensures { result ≡ blank_slot }
    {
        Slot {
            item: None,
            head: None,
            next: None,
        }
    }
}

/// The answer of a table that has no place for a new key.
#[derive(Clone, Copy, PartialEq, Eq, Debug)]
pub struct Full;

impl fmt::Display for Full {
    ghost output = { λ _. Some (codes "the table is full") };

    fn fmt<W: fmt::Write>(&self, f: &mut fmt::Formatter<W>) -> fmt::Result {
        write!(f, "the table is full")
    }
}

impl Error for Full {}
