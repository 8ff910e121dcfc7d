// Fills a keyed table with lane addresses, replaces, removes and empties, and prints its items in sequence after each
// action. Each line of items has position, address and record: position:junction/arm/lane=lanes,share.

#![tactic(auto)]

mod uses;

use fault::Fault;
use keyed_table::{Full, KeyedTable, Slot};
use keys::{Ends, Junction, LaneAddress, LaneRecord, NodeIndex};
use std::io;
use uses::left_at_other;

fn print_items(rt: HostRuntime, table: &KeyedTable<'_, LaneAddress, LaneRecord>) -> io::Result<()> {
    print!(rt; "  free {}:", table.free())?;
    for (i, item) in (0..table.len()).zip(table.iter()) {
        print!(rt; " {i}:{}={}", item.key, item.value)?;
    }
    println!(rt; "")
}

fn record(lanes: u32, turning_share: u32) -> LaneRecord {
    LaneRecord {
        lanes,
        turning_share,
    }
}

fn insert(
    rt: HostRuntime,
    table: &mut KeyedTable<'_, LaneAddress, LaneRecord>,
    key: LaneAddress,
    value: LaneRecord,
) -> io::Result<()> {
    match table.insert(key, value) {
        Ok(None) => println!(rt; "insert: new")?,
        Ok(Some(old)) => println!(rt; "insert: replaced {old}")?,
        Err(Full) => println!(rt; "insert: full")?,
    }
    print_items(rt, table)
}

fn remove(
    rt: HostRuntime,
    table: &mut KeyedTable<'_, LaneAddress, LaneRecord>,
    key: LaneAddress,
) -> io::Result<()> {
    match table.swap_remove(&key) {
        Some(old) => println!(rt; "remove: {old}")?,
        None => println!(rt; "remove: absent")?,
    }
    print_items(rt, table)
}

fn change(
    rt: HostRuntime,
    table: &mut KeyedTable<'_, LaneAddress, LaneRecord>,
    position: u32,
    value: LaneRecord,
) -> io::Result<()> {
    if table.set_at(position, value) {
        println!(rt; "change at {position}")?;
    } else {
        println!(rt; "change at {position}: past the end")?;
    }
    print_items(rt, table)
}

fn find(
    rt: HostRuntime,
    table: &KeyedTable<'_, LaneAddress, LaneRecord>,
    key: LaneAddress,
) -> io::Result<()> {
    match table.position(&key) {
        Some(position) => println!(rt; "found at {position}"),
        None => println!(rt; "not found"),
    }
}

fn act(rt: HostRuntime, lanes: [LaneAddress; 4]) -> io::Result<()> {
    let [first, second, third, fourth] = lanes;
    let mut slots = [Slot::blank(); 3];
    let mut table = KeyedTable::new(&mut slots);
    insert(rt, &mut table, first, record(2, 300))?;
    insert(rt, &mut table, second, record(1, 700))?;
    insert(rt, &mut table, third, record(1, 1000))?;
    insert(rt, &mut table, fourth, record(3, 50))?;
    insert(rt, &mut table, first, record(4, 250))?;
    find(rt, &table, third)?;
    remove(rt, &mut table, first)?;
    find(rt, &table, third)?;
    remove(rt, &mut table, first)?;
    insert(rt, &mut table, fourth, record(3, 50))?;
    change(rt, &mut table, 1, record(9, 990))?;
    change(rt, &mut table, 3, record(9, 990))?;
    table.clear();
    println!(rt; "clear")?;
    print_items(rt, &table)
}

fn print_other_keys(rt: HostRuntime) -> io::Result<()> {
    let source = Junction::new(7);
    let target = Junction::new(9);
    let out = Ends { source, target };
    let back = Ends {
        source: target,
        target: source,
    };
    let by_junction = left_at_other(&mut [Slot::blank(); 2], source, target, 1, 2).unwrap_or(0);
    let by_ends = left_at_other(&mut [Slot::blank(); 2], out, back, 3, 4).unwrap_or(0);
    let by_index = left_at_other(
        &mut [Slot::blank(); 2],
        NodeIndex::new(7),
        NodeIndex::new(9),
        5,
        6,
    )
    .unwrap_or(0);
    println!(rt; "left by junction {by_junction}, by ends {by_ends}, by node index {by_index}")
}

// Tells why an address was refused.
fn refused(rt: HostRuntime, fault: Fault) -> io::Result<()> {
    println!(rt; "address refused with {}", fault.number())
}

fn lanes_with(arm: u8) -> Result<[LaneAddress; 4], Fault> {
    Ok([
        LaneAddress::new(12, 0, 1)?,
        LaneAddress::new(12, 0, 2)?,
        LaneAddress::new(16_777_215, 15, 15)?,
        LaneAddress::new(40, arm, 0)?,
    ])
}

fn run(rt: HostRuntime, arm: u8) -> io::Result<()> {
    match lanes_with(arm) {
        Ok(lanes) => act(rt, lanes),
        Err(fault) => refused(rt, fault),
    }
}

fn main(rt: HostRuntime) -> io::Result<()> {
    run(rt, 3)?;
    run(rt, 16)?;
    print_other_keys(rt)
}
