// What `audit_order` prints of the order, the held arcs and the bounds.

use edit_lines::write_arc;
use fault::Fault;
use feedback_arc_set::{HeldArcs, Ordering};
use graphmap::OpenMap;
use keys::Junction;
use most_held::most_held;
use std::fmt::Write;

// How many arcs a cursor has still to show. It is handed the map at each step, so it is no iterator; it shows no more
// arcs than the map has.
fn held_count(mut held: HeldArcs<'_, '_>, map: OpenMap<'_, '_, Junction, u32>) -> u32 {
    let mut count: u32 = 0;
    for _ in 0..map.edge_count() {
        if held.next(&map).is_some() {
            count = count.saturating_add(1);
        }
    }
    count
}

fn write_places(out: &mut String, ordering: &Ordering<'_>) -> anyhow::Result<()> {
    for (place, node) in ordering.nodes().iter().enumerate() {
        writeln!(out, "{place} {node}")?;
    }
    Ok(())
}

// Counted for the same reason.
fn write_held(
    out: &mut String,
    mut held: HeldArcs<'_, '_>,
    map: OpenMap<'_, '_, Junction, u32>,
) -> anyhow::Result<()> {
    for _ in 0..map.edge_count() {
        let Some(shown) = held.next(&map) else {
            break;
        };
        let arc = shown.arc;
        write_arc(out, "held", (arc.source, arc.target, arc.weight))?;
    }
    Ok(())
}

// The most that could have been held.
fn write_bounds(
    out: &mut String,
    map: OpenMap<'_, '_, Junction, u32>,
    touched: u32,
) -> anyhow::Result<()> {
    let most = most_held(&map, touched);
    writeln!(out, "at most {} by half", most.by_half)?;
    if let Some(bound) = most.by_nodes {
        writeln!(out, "at most {bound} by nodes")?;
    }
    Ok(())
}

/// The counts, the order, the held arcs and the bounds.
pub fn write_order(
    out: &mut String,
    map: OpenMap<'_, '_, Junction, u32>,
    ordering: &Ordering<'_>,
    touched: u32,
) -> anyhow::Result<Result<(), Fault>> {
    let held = match ordering.held(&map) {
        Ok(held) => held,
        Err(fault) => return Ok(Err(fault)),
    };
    let count = held_count(held, map);
    writeln!(
        out,
        "nodes {touched} arcs {} held {count}",
        map.edge_count()
    )?;
    write_places(out, ordering)?;
    write_held(out, held, map)?;
    write_bounds(out, map, touched)?;
    Ok(Ok(()))
}
