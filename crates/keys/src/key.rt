ghost use Rattle.std.specs.Prelude.{◌≡◌, ℕ, ◌^◌, ◌<◌, ◌==◌};
ghost use Rattle.keys.specs.Numbers.{mixed};

use crate::node_index::NodeIndex;

/// What can be looked up in a table. A key means one number below 2^64, and no two keys of a type mean the same one.
pub trait Key: Copy {
    ghost code: { Self → ℕ };

    /// The number that the key means.
    fn number(&self) -> u64
        ensures { result ≡ code self.now };

    // By their numbers, on which a table's laws stand. `==` compares fields, and each key would owe that the two agree.
    /// Whether two keys mean the same.
    fn same(&self, other: &Self) -> bool
        ensures { result ≡ (code self.now == code other.now) }
    {
        self.number() == other.number()
    }

    /// The key's number, mixed: the same for keys that mean the same.
    fn hash(&self) -> u64
        ensures { result ≡ mixed (code self.now) }
    {
        mix(self.number())
    }

    ghost small: { (x : Self) → code x < 2 ^ 64 };

    ghost apart: { (x y : Self) → code x ≡ code y → x ≡ y };
}

/// A key that names a node. Its index is below 2^32, and different keys have different indices.
pub trait NodeKey: Key {
    ghost index: { Self → ℕ };

    /// The index of the node that the key names.
    fn node_index(&self) -> NodeIndex
        ensures { result.value ≡ index self.now };

    ghost narrow: { (x : Self) → index x < 2 ^ 32 };

    ghost differs: { (x y : Self) → index x ≡ index y → x ≡ y };

    ghost numbered: { (x : Self) → Self.Key.code x ≡ index x };
}

/// Spreads a number over 32 bits: the high half of its product with an odd constant.
pub fn mix(number: u64) -> u64
    ensures { result ≡ mixed number }
{
    number.wrapping_mul(11400714819323198485) >> 32
}
