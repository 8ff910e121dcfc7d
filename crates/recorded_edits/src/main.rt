// Replays recorded lists of edits, and counts those whose answers and final map are the recorded ones.

#![tactic(auto)]

use edit_lines::LineWords;
use edit_records::record_in_line;
use std::alloc::{AllocError, Global};
use std::io::{BufRead, BufReader};

// Whether a line is a record of edits, and agrees.
fn agrees(heap: Global, line: &str) -> Result<bool, AllocError> {
    match LineWords::new(line).split_first() {
        Some(("edits", rest)) => record_in_line(heap, rest),
        _ => Ok(false),
    }
}

fn main(rt: HostRuntime) -> anyhow::Result<()> {
    let mut records: u64 = 0;
    let mut agree: u64 = 0;
    for line in BufReader::new(rt.alloc(), rt.stdin())?.lines(rt.alloc()) {
        let line = line?;
        records = records.saturating_add(1);
        if agrees(rt.alloc(), line.as_str())? {
            agree = agree.saturating_add(1);
        }
    }
    println!(rt; "{agree} of {records} agree")?;
    Ok(())
}
