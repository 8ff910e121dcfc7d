ghost use Rattle.std.specs.Prelude.{◌≡◌, ℕ, true, List, ◌∷◌, ◌++◌, Option};
ghost use Rattle.linked_list.specs.Places.{is_in, prev_of, next_of, at};
ghost use Rattle.linked_list.specs.Chains.{Holds, has, first, last};

use crate::container::Container;

/// Whether `i` is in a list.
#[tactic(auto, using(crate::proofs::Linking::listed_in))]
pub fn is_in_list<C: Container>(entries: &C, i: u32) -> bool
    ensures answer { result ≡ is_in (at (C.positions entries.now) i) }
    ensures listed { (s : Option ℕ) (l : List ℕ) → Holds (C.positions entries.now) s l → has l i ≡ true → result ≡ true }
{
    entries.position(i).is_some()
}

/// The entry after `i` in its list.
pub fn next<C: Container>(entries: &C, i: u32) -> Option<u32>
    ensures answer { result ≡ next_of (at (C.positions entries.now) i) }
    ensures listed { (s : Option ℕ) (a b : List ℕ) → Holds (C.positions entries.now) s (a ++ i ∷ b) → result ≡ first b }
{
    entries.position(i)?.next
}

/// The entry before `i` in its list.
pub fn prev<C: Container>(entries: &C, i: u32) -> Option<u32>
    ensures answer { result ≡ prev_of (at (C.positions entries.now) i) }
    ensures listed { (s : Option ℕ) (a b : List ℕ) → Holds (C.positions entries.now) s (a ++ i ∷ b) → result ≡ last a }
{
    entries.position(i)?.prev
}
