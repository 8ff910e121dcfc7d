// Replays recorded answers of petgraph's own code, and counts the records that agree.

#![tactic(auto)]

mod orders;

use edit_lines::LineWords;
use std::io::{BufRead, BufReader};

// How many records of a kind there are, and how many agree.
#[derive(Clone, Copy)]
struct Tally {
    records: u64,
    agree: u64,
}

impl Tally {
    fn new() -> Tally {
        Tally {
            records: 0,
            agree: 0,
        }
    }

    fn with(self, agrees: bool) -> Tally {
        Tally {
            records: self.records.saturating_add(1),
            agree: if agrees {
                self.agree.saturating_add(1)
            } else {
                self.agree
            },
        }
    }
}

fn main(rt: HostRuntime) -> anyhow::Result<()> {
    let mut edit_lists = Tally::new();
    let mut orders = Tally::new();
    let mut others = Tally::new();
    for line in BufReader::new(rt.alloc(), rt.stdin())?.lines(rt.alloc()) {
        let line = line?;
        match LineWords::new(line.as_str()).split_first() {
            Some(("edits", rest)) => {
                edit_lists = edit_lists.with(edit_records::record_in_line(rt.alloc(), rest)?);
            }
            Some(("order", rest)) => orders = orders.with(orders::record(rt.alloc(), rest)?),
            _ => others = others.with(false),
        }
    }
    println!(rt;
        "lists of edits: {} of {} agree",
        edit_lists.agree, edit_lists.records
    )?;
    println!(rt; "orders: {} of {} agree", orders.agree, orders.records)?;
    println!(rt; "no record: {}", others.records)?;
    Ok(())
}
