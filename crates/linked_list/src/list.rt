ghost use Rattle.std.specs.Prelude.{◌≡◌, ℕ, true, false, not, ◌&&◌, List, [], ◌∷◌, length, if◌then◌else◌, Some, None, Option, ◌≢◌, nat_lt};
ghost use Rattle.std.specs.Fn.{FnOnceReturnsAtMut};
ghost use Rattle.linked_list.specs.declared.position.LinkedListPosition.{LinkedListPosition};
ghost use Rattle.linked_list.specs.Places.{Position, is_in, at, Computes, changed};
ghost use Rattle.linked_list.specs.Chains.{Holds, Other, has, first, rest, without, replaced, swap_removed, leads_to, points_back, can_remove, start_after_remove, after_remove, after_replace, moved, is_front, can_push, after_push, can_pop, after_pop, start_after_pop, can_swap, after_swap, start_after_swap};
ghost use Rattle.linked_list.specs.Laws.{Becomes, OthersStay, OthersBecome, OthersStayIfListed, StatusStays};

use crate::container::Container;
use crate::position::LinkedListPosition;
use crate::walk;

// A list of indices: the entries from `start` on.
#[derive(Clone, Copy)]
pub struct LinkedList {
    pub start: Option<u32>,
}

// Where a list starts once `new` stands where `i` stood.
fn moved_start(start: Option<u32>, i: u32, new: Option<u32>) -> Option<u32>
    ensures { result ≡ moved start i new }
{
    if start == Some(i) { new } else { start }
}

// Changes where the entry that is named stands; one in no list stays so.
fn update<C: Container, F: FnOnce(&mut LinkedListPosition)>(
    entries: &mut C,
    named: Option<u32>,
    change: F,
)
    requires { F.IsAlwaysCallable change }
    ensures placed { (f : LinkedListPosition → LinkedListPosition) → Computes (λ p q. FnOnceReturnsAtMut F.FnOnce change p tt q) f → C.positions entries.new ≡ changed f (C.positions entries.old) named }
    ensures kept { C.stripped entries.new ≡ C.stripped entries.old }
{
    if let Some(i) = named {
        let mut position = entries.position(i);
        if let Some(position) = &mut position {
            change(position);
        }
        entries.set_position(i, position);
    }
}

// Two cases with different tests, so a `match` says it as it is.
// Whether what stands before `i` leads to it: the start, or the entry that `prev` names.
fn leads_to<C: Container>(entries: &C, start: Option<u32>, prev: Option<u32>, i: u32) -> bool
    ensures { result ≡ leads_to (C.positions entries.now) start prev i }
{
    match prev {
        None => start == Some(i),
        Some(p) => start != Some(i) && walk::next(entries, p) == Some(i),
    }
}

// Whether the entry that is named, if any, has `i` before it.
fn has_before<C: Container>(entries: &C, named: Option<u32>, i: u32) -> bool
    ensures { result ≡ points_back (C.positions entries.now) named i }
{
    named.is_none_or(|n| walk::prev(entries, n) == Some(i))
}

// Whether nothing stands before the entry that is named, if any.
fn is_front_entry<C: Container>(entries: &C, named: Option<u32>) -> bool
    ensures { result ≡ is_front (C.positions entries.now) named }
{
    named.is_none_or(|front| {
        entries
            .position(front)
            .is_some_and(|position| position.prev.is_none())
    })
}

impl LinkedList {
    /// A list with no entries.
    pub fn new() -> LinkedList
        ensures answer { result.start ≡ None }
        ensures listed { (L : List Position) → Holds L result.start [] }
    {
        LinkedList { start: None }
    }

    // Whether `i` is in a list, as its neighbours, or the start, say too.
    fn can_remove<C: Container>(&self, entries: &C, i: u32) -> bool
        ensures { result ≡ can_remove (C.positions entries.now) self.now.start i }
    {
        entries.position(i).is_some_and(|position| {
            leads_to(entries, self.start, position.prev, i) && has_before(entries, position.next, i)
        })
    }

    // Whether `i` is there and in no list, and this is a list.
    fn can_push<C: Container>(&self, entries: &C, i: u32) -> bool
        ensures { result ≡ can_push (C.positions entries.now) self.now.start i }
    {
        entries.holds(i) && entries.position(i).is_none() && is_front_entry(entries, self.start)
    }

    // Puts `i` before the first entry.
    fn put_front<C: Container>(&mut self, entries: &mut C, i: u32)
        ensures placed { C.positions entries.new ≡ after_push (C.positions entries.old) self.old.start i }
        ensures started { self.new.start ≡ Some i }
        ensures kept { C.stripped entries.new ≡ C.stripped entries.old }
    {
        update(entries, self.start, |position| position.prev = Some(i));
        let position = LinkedListPosition {
            prev: None,
            next: self.start,
        };
        entries.set_position(i, Some(position));
        self.start = Some(i);
    }

    // Not one function with `put_for`: that links other neighbours and writes another place.
    // Takes `i` out: its neighbours become each other's.
    fn take_out<C: Container>(&mut self, entries: &mut C, i: u32)
        ensures placed { C.positions entries.new ≡ after_remove (C.positions entries.old) i }
        ensures started { self.new.start ≡ start_after_remove (C.positions entries.old) self.old.start i }
        ensures kept { C.stripped entries.new ≡ C.stripped entries.old }
    {
        let prev = walk::prev(entries, i);
        let next = walk::next(entries, i);
        update(entries, prev, |position| position.next = next);
        update(entries, next, |position| position.prev = prev);
        entries.set_position(i, None);
        self.start = moved_start(self.start, i, next);
    }

    // Puts `j` where `i` stands, and takes `i` out.
    fn put_for<C: Container>(&mut self, entries: &mut C, i: u32, j: u32)
        ensures placed { C.positions entries.new ≡ after_replace (C.positions entries.old) i j }
        ensures started { self.new.start ≡ moved self.old.start i (Some j) }
        ensures kept { C.stripped entries.new ≡ C.stripped entries.old }
    {
        let position = entries.position(i);
        let prev = walk::prev(entries, i);
        let next = walk::next(entries, i);
        update(entries, prev, |position| position.next = Some(j));
        update(entries, next, |position| position.prev = Some(j));
        entries.set_position(j, position);
        entries.set_position(i, None);
        self.start = moved_start(self.start, i, Some(j));
    }

    // Whether both the first entry and `i` can be taken out.
    fn can_swap<C: Container>(&self, entries: &C, i: u32) -> bool
        ensures { result ≡ can_swap (C.positions entries.now) self.now.start i }
    {
        self.start.is_some_and(|front| {
            self.can_remove(entries, front) && self.can_remove(entries, i)
        })
    }

    // Takes the first entry out, and puts it where `i` stands unless it is `i`.
    fn move_front<C: Container>(&mut self, entries: &mut C, i: u32)
        ensures placed { C.positions entries.new ≡ after_swap (C.positions entries.old) self.old.start i }
        ensures started { self.new.start ≡ start_after_swap (C.positions entries.old) self.old.start i }
        ensures kept { C.stripped entries.new ≡ C.stripped entries.old }
    {
        if let Some(front) = self.start {
            self.take_out(entries, front);
            if front != i {
                self.put_for(entries, i, front);
            }
        }
    }

    /// Puts `i`, which is in no list, before the first entry.
    ///
    /// Answers `false`, and changes nothing, where the container has no entry `i` or `i` is in a list.
    pub fn push_front<C: Container>(&mut self, entries: &mut C, i: u32) -> bool
        ensures answer { result ≡ can_push (C.positions entries.old) self.old.start i }
        ensures placed { C.positions entries.new ≡ (if result then after_push (C.positions entries.old) self.old.start i else C.positions entries.old) }
        ensures started { self.new.start ≡ (if result then Some i else self.old.start) }
        ensures kept { C.stripped entries.new ≡ C.stripped entries.old }
        ensures granted { (l : List ℕ) → Holds (C.positions entries.old) self.old.start l → result ≡ (nat_lt i (length (C.positions entries.old)) && not (is_in (at (C.positions entries.old) i))) }
        ensures listed { result ≡ true → Becomes (λ l. i ∷ l) (C.positions entries.old) self.old.start (C.positions entries.new) self.new.start }
        ensures others { OthersStay (C.positions entries.old) self.old.start (C.positions entries.new) }
        ensures status { StatusStays i (C.positions entries.old) (C.positions entries.new) }
        ensures size { length (C.positions entries.new) ≡ length (C.positions entries.old) }
    {
        if !self.can_push(entries, i) {
            return false;
        }
        self.put_front(entries, i);
        true
    }

    /// Takes `i`, an entry of this list, out of it.
    ///
    /// Answers `false`, and changes nothing, where `i` is in no list or the start of another one.
    /// A later entry of another list leaves that list.
    pub fn remove<C: Container>(&mut self, entries: &mut C, i: u32) -> bool
        ensures answer { result ≡ can_remove (C.positions entries.old) self.old.start i }
        ensures placed { C.positions entries.new ≡ (if result then after_remove (C.positions entries.old) i else C.positions entries.old) }
        ensures started { self.new.start ≡ (if result then start_after_remove (C.positions entries.old) self.old.start i else self.old.start) }
        ensures kept { C.stripped entries.new ≡ C.stripped entries.old }
        ensures granted { (l : List ℕ) → Holds (C.positions entries.old) self.old.start l → has l i ≡ true → result ≡ true }
        ensures listed { Becomes (without i) (C.positions entries.old) self.old.start (C.positions entries.new) self.new.start }
        ensures others { OthersStayIfListed i (C.positions entries.old) self.old.start (C.positions entries.new) }
        ensures elsewhere { result ≡ true → OthersBecome (without i) (C.positions entries.old) self.old.start (C.positions entries.new) }
        ensures freed { result ≡ true → at (C.positions entries.new) i ≡ None }
        ensures status { StatusStays i (C.positions entries.old) (C.positions entries.new) }
        ensures size { length (C.positions entries.new) ≡ length (C.positions entries.old) }
    {
        if !self.can_remove(entries, i) {
            return false;
        }
        self.take_out(entries, i);
        true
    }

    /// Takes the first entry out, and answers it.
    pub fn pop<C: Container>(&mut self, entries: &mut C) -> Option<u32>
        ensures answer { result ≡ (if can_pop (C.positions entries.old) self.old.start then self.old.start else None) }
        ensures placed { C.positions entries.new ≡ (if can_pop (C.positions entries.old) self.old.start then after_pop (C.positions entries.old) self.old.start else C.positions entries.old) }
        ensures started { self.new.start ≡ (if can_pop (C.positions entries.old) self.old.start then start_after_pop (C.positions entries.old) self.old.start else self.old.start) }
        ensures kept { C.stripped entries.new ≡ C.stripped entries.old }
        ensures granted { (l : List ℕ) → Holds (C.positions entries.old) self.old.start l → result ≡ first l }
        ensures listed { Becomes rest (C.positions entries.old) self.old.start (C.positions entries.new) self.new.start }
        ensures others { OthersStay (C.positions entries.old) self.old.start (C.positions entries.new) }
        ensures freed { (i : ℕ) → result ≡ Some i → at (C.positions entries.new) i ≡ None }
        ensures status { (j : ℕ) → (result ≢ Some j) → is_in (at (C.positions entries.new) j) ≡ is_in (at (C.positions entries.old) j) }
        ensures size { length (C.positions entries.new) ≡ length (C.positions entries.old) }
    {
        let popped = self.start?;
        self.remove(entries, popped).then_some(popped)
    }

    /// Takes `i`, an entry of this list, out of it, and puts the first entry in its place.
    ///
    /// The first entry itself just leaves. Answers `false`, and changes nothing, where `remove` does.
    pub fn swap_remove<C: Container>(&mut self, entries: &mut C, i: u32) -> bool
        ensures answer { result ≡ can_swap (C.positions entries.old) self.old.start i }
        ensures placed { C.positions entries.new ≡ (if result then after_swap (C.positions entries.old) self.old.start i else C.positions entries.old) }
        ensures started { self.new.start ≡ (if result then start_after_swap (C.positions entries.old) self.old.start i else self.old.start) }
        ensures kept { C.stripped entries.new ≡ C.stripped entries.old }
        ensures granted { (l : List ℕ) → Holds (C.positions entries.old) self.old.start l → has l i ≡ true → result ≡ true }
        ensures listed { result ≡ true → Becomes (swap_removed i) (C.positions entries.old) self.old.start (C.positions entries.new) self.new.start }
        ensures others { OthersStayIfListed i (C.positions entries.old) self.old.start (C.positions entries.new) }
        ensures elsewhere { (f : ℕ) → result ≡ true → self.old.start ≡ Some f → OthersBecome (replaced i f) (C.positions entries.old) self.old.start (C.positions entries.new) }
        ensures freed { result ≡ true → at (C.positions entries.new) i ≡ None }
        ensures status { StatusStays i (C.positions entries.old) (C.positions entries.new) }
        ensures size { length (C.positions entries.new) ≡ length (C.positions entries.old) }
    {
        if !self.can_swap(entries, i) {
            return false;
        }
        self.move_front(entries, i);
        true
    }
}
