// Two lists in one container: each action, what it answers, and both lists after it.

#![tactic(auto)]

use linked_list::list::LinkedList;
use linked_list::slots::{Link, Slots};
use linked_list::walk;
use std::io;
use std::iter::successors;

const ENTRIES: usize = 8;

// Which of the two lists.
#[derive(Clone, Copy)]
enum List {
    A,
    B,
}

#[derive(Clone, Copy)]
enum Action {
    PushFront(u32),
    Pop,
    Remove(u32),
    SwapRemove(u32),
}

// Prints the entries from `first` on, each of which `step` answers for the one before it.
fn print_entries<F: Fn(u32) -> Option<u32>>(
    rt: &HostRuntime,
    first: Option<u32>,
    step: F,
) -> io::Result<()>
    requires { (f : F) (i : _) → F.pre f i }
{
    for i in successors(first, |i| step(*i)).take(ENTRIES) {
        print!(rt; " {i}")?;
    }
    Ok(())
}

// A list on one line, from first to last and back.
fn show(rt: &HostRuntime, name: &str, list: LinkedList, entries: &Slots<Link>) -> io::Result<()> {
    let last = successors(list.start, |i| walk::next(entries, *i))
        .take(ENTRIES)
        .last();
    print!(rt; "  {name}:")?;
    print_entries(rt, list.start, |i| walk::next(entries, i))?;
    print!(rt; " |")?;
    print_entries(rt, last, |i| walk::prev(entries, i))?;
    println!(rt; "")
}

// Does one action, and says what it answers.
fn act(
    rt: &HostRuntime,
    list: &mut LinkedList,
    entries: &mut Slots<Link>,
    action: Action,
) -> io::Result<()> {
    match action {
        Action::PushFront(i) => {
            let granted = list.push_front(entries, i);
            println!(rt; "push_front({i}): {granted}")
        }
        Action::Pop => match list.pop(entries) {
            None => println!(rt; "pop(): none"),
            Some(i) => println!(rt; "pop(): {i}"),
        },
        Action::Remove(i) => {
            let granted = list.remove(entries, i);
            println!(rt; "remove({i}): {granted}")
        }
        Action::SwapRemove(i) => {
            let granted = list.swap_remove(entries, i);
            println!(rt; "swap_remove({i}): {granted}")
        }
    }
}

fn main(rt: HostRuntime) -> io::Result<()> {
    let mut links = [Link { position: None }; ENTRIES];
    let mut entries = Slots { slots: &mut links };
    let mut a = LinkedList::new();
    let mut b = LinkedList::new();
    let steps = [
        (List::A, Action::PushFront(0)),
        (List::A, Action::PushFront(1)),
        (List::A, Action::PushFront(2)),
        (List::A, Action::PushFront(3)),
        (List::B, Action::PushFront(6)),
        (List::B, Action::PushFront(3)),
        (List::B, Action::PushFront(8)),
        (List::A, Action::Remove(2)),
        (List::A, Action::Remove(6)),
        (List::A, Action::PushFront(4)),
        (List::A, Action::SwapRemove(1)),
        (List::A, Action::SwapRemove(3)),
        (List::A, Action::Pop),
        (List::B, Action::Pop),
        (List::B, Action::Pop),
    ];
    for (list, action) in steps {
        let (name, list) = match list {
            List::A => ("a", &mut a),
            List::B => ("b", &mut b),
        };
        print!(rt; "{name}.")?;
        act(&rt, list, &mut entries, action)?;
        show(&rt, "a", a, &entries)?;
        show(&rt, "b", b, &entries)?;
    }
    Ok(())
}
