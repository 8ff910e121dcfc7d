// A map of lane addresses whose arcs carry lane records: edits, and what the map then shows.

#![tactic(auto)]

use graphmap::GraphMap;
use heap_tables::MapTables;
use keys::{Key, LaneAddress, LaneRecord};

// Adds an arc, and prints what the call answered.
fn add(
    rt: &HostRuntime,
    map: &mut GraphMap<'_, LaneAddress, LaneRecord>,
    a: LaneAddress,
    b: LaneAddress,
    weight: LaneRecord,
) -> anyhow::Result<()> {
    match map.add_edge(a, b, weight) {
        Ok(None) => println!(rt; "new")?,
        Ok(Some(old)) => println!(rt; "was {} lanes, {} per mille", old.lanes, old.turning_share)?,
        Err(fault) => println!(rt; "{fault}")?,
    }
    Ok(())
}

fn show(rt: &HostRuntime, map: &GraphMap<'_, LaneAddress, LaneRecord>) -> anyhow::Result<()> {
    for (a, b, weight) in map.open().all_edges() {
        println!(rt;
            "{a} {b} {} lanes, {} per mille",
            weight.lanes, weight.turning_share
        )?;
    }
    Ok(())
}

fn run(rt: &HostRuntime) -> anyhow::Result<()> {
    let mut tables = MapTables::new(rt.alloc(), 2, 2)?;
    let mut map: GraphMap<'_, LaneAddress, LaneRecord> = GraphMap::new();
    if let Err(fault) = map.with_capacity(&mut tables.places()) {
        println!(rt; "{fault}")?;
        return Ok(());
    }
    let a = LaneAddress::new(12, 0, 1)?;
    let b = LaneAddress::new(12, 3, 15)?;
    let c = LaneAddress::new(16_777_215, 15, 15)?;
    add(
        rt,
        &mut map,
        a,
        b,
        LaneRecord {
            lanes: 2,
            turning_share: 300,
        },
    )?;
    add(
        rt,
        &mut map,
        a,
        b,
        LaneRecord {
            lanes: 1,
            turning_share: 450,
        },
    )?;
    add(
        rt,
        &mut map,
        b,
        b,
        LaneRecord {
            lanes: 1,
            turning_share: 20,
        },
    )?;
    add(
        rt,
        &mut map,
        b,
        c,
        LaneRecord {
            lanes: 3,
            turning_share: 1000,
        },
    )?;
    show(rt, &map)?;
    println!(rt;
        "{}",
        if map.remove_node(a) {
            "removed"
        } else {
            "absent"
        }
    )?;
    add(
        rt,
        &mut map,
        b,
        c,
        LaneRecord {
            lanes: 3,
            turning_share: 1000,
        },
    )?;
    show(rt, &map)
}

fn main(rt: HostRuntime) -> anyhow::Result<()> {
    run(&rt)
}
